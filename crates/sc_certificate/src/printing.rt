//! Prints price lists and journals.

ghost use Rattle.std.specs.Prelude.{◌≡◌, ◌<◌, ◌∷◌, [], ◌++◌, map, IfOk, OnOk, OnErr};
ghost use Rattle.sc_theory.specs.Chains.{positions};
ghost use Rattle.sc_theory.specs.Prices.{pairs};
ghost use Rattle.sc_chain.specs.declared.limits.TheConstants.{MAX_POSITIONS};
ghost use Rattle.sc_line.specs.Lines.{ended, text_of};
ghost use Rattle.sc_line.specs.Printing.{AppendsPart};
ghost use Rattle.sc_text.specs.PriceLines as lines;
ghost use Rattle.sc_certificate.specs.PivotLines.{pivot_line};
ghost use Rattle.sc_certificate.specs.Spelled.{pair_lines, list_text, journal_lines};
ghost use Rattle.sc_certificate.specs.inside.PrintedPairs.{pairs_from, ArePrinted};

use crate::price_list::PriceList;
use sc_chain::{Chain, Pivot, is_inverse};
use sc_text::{
    Field, print_base_line, print_count_line, print_line, print_pair_line, print_scale_line,
};
use std::alloc::AllocError;

/// Appends the lines of the prices of words. Where memory runs out, a front of them was appended.
fn print_base_lines(prices: &[i128], out: &mut Vec<u8>) -> Result<(), AllocError>
    ensures ok { OnOk result (out.new.items ≡ out.old.items ++ text_of (map lines.base_line prices.now)) }
    ensures err { OnErr result (AppendsPart out.old.items out.new.items (text_of (map lines.base_line prices.now))) }
{
    for price in prices {
        print_base_line(*price, out)?;
    }
    Ok(())
}

/// Appends the line of a pair beside the first of these prices, where there is one. Answers the prices behind it.
fn print_next_pair<'a>(
    p: usize,
    q: usize,
    prices: &'a [i128],
    out: &mut Vec<u8>,
) -> Result<&'a [i128], AllocError>
    requires first { p < MAX_POSITIONS }
    requires second { q < MAX_POSITIONS }
    ensures ok { IfOk result (λ left. ArePrinted out.old.items prices.now ((p, q) ∷ []) out.new.items left.now) }
    ensures err { OnErr result (AppendsPart out.old.items out.new.items (text_of (pair_lines ((p, q) ∷ []) prices.now))) }
{
    let [price, left @ ..] = prices else {
        return Ok(prices);
    };
    print_pair_line(p as u32, q as u32, *price, out)?;
    Ok(left)
}

/// Appends the lines of the pairs whose lesser position is p, beside the first of these prices. Answers the prices
/// behind theirs.
fn print_pairs_of<'a>(
    chain: &Chain,
    p: usize,
    prices: &'a [i128],
    out: &mut Vec<u8>,
) -> Result<&'a [i128], AllocError>
    requires { p < positions chain.now }
    ensures ok { IfOk result (λ left. ArePrinted out.old.items prices.now (pairs_from chain.now p) out.new.items left.now) }
    ensures err { OnErr result (AppendsPart out.old.items out.new.items (text_of (pair_lines (pairs_from chain.now p) prices.now))) }
{
    let positions = chain.positions();
    let mut left = prices;
    for q in p + 1..positions {
        if is_inverse(chain.letter(p), chain.letter(q)) {
            left = print_next_pair(p, q, left, out)?;
        }
    }
    Ok(left)
}

/// Appends the lines of the inverse pairs of a chain beside their prices, and takes memory for the text alone. A price
/// past the last pair has no line, and a pair past the last price has none. Where memory runs out, a front of the lines
/// was appended.
fn print_pair_lines(chain: &Chain, prices: &[i128], out: &mut Vec<u8>) -> Result<(), AllocError>
    ensures ok { OnOk result (out.new.items ≡ out.old.items ++ text_of (pair_lines (pairs chain.now) prices.now)) }
    ensures err { OnErr result (AppendsPart out.old.items out.new.items (text_of (pair_lines (pairs chain.now) prices.now))) }
{
    let mut left = prices;
    for p in 0..chain.positions() {
        left = print_pairs_of(chain, p, left, out)?;
    }
    Ok(())
}

/// Appends the lines of a price list for a chain. A price past the last pair has no line. Where memory runs out, a
/// front of them was appended.
pub fn print_list(chain: &Chain, list: &PriceList, out: &mut Vec<u8>) -> Result<(), AllocError>
    ensures ok { OnOk result (out.new.items ≡ out.old.items ++ list_text (pairs chain.now) list.now) }
    ensures err { OnErr result (AppendsPart out.old.items out.new.items (list_text (pairs chain.now) list.now)) }
{
    print_scale_line(list.scale(), out)?;
    print_base_lines(list.base(), out)?;
    print_pair_lines(chain, list.pair(), out)
}

fn print_pivot_line(pivot: &Pivot, out: &mut Vec<u8>) -> Result<(), AllocError>
    ensures ok { OnOk result (out.new.items ≡ out.old.items ++ ended (pivot_line pivot.now)) }
    ensures err { OnErr result (AppendsPart out.old.items out.new.items (ended (pivot_line pivot.now))) }
{
    let fields = [
        Field::Number(i128::from(pivot.row)),
        Field::Numbers(pivot.polygon.walk()),
    ];
    print_line(b"pivot", &fields, out)
}

fn print_pivot_lines(journal: &[Pivot], out: &mut Vec<u8>) -> Result<(), AllocError>
    ensures ok { OnOk result (out.new.items ≡ out.old.items ++ text_of (map pivot_line journal.now)) }
    ensures err { OnErr result (AppendsPart out.old.items out.new.items (text_of (map pivot_line journal.now))) }
{
    for pivot in journal {
        print_pivot_line(pivot, out)?;
    }
    Ok(())
}

/// Appends the lines of a journal: how many pivots there are, and the pivots. Where memory runs out, a front of them
/// was appended.
pub fn print_journal(journal: &[Pivot], out: &mut Vec<u8>) -> Result<(), AllocError>
    ensures ok { OnOk result (out.new.items ≡ out.old.items ++ text_of (journal_lines journal.now)) }
    ensures err { OnErr result (AppendsPart out.old.items out.new.items (text_of (journal_lines journal.now))) }
{
    print_count_line(b"pivots", journal.len() as u64, out)?;
    print_pivot_lines(journal, out)
}
