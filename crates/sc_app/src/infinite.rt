//! The line of a chain that isn't balanced.

ghost use Rattle.std.specs.Prelude.{◌≡◌, ◌+◌, ◌<◌, ◌++◌, ◌∷◌, IfOk};
ghost use Rattle.sc_whole.specs.Spelling.{spelling};
ghost use Rattle.sc_app.specs.Notes.{line};

use sc_chain::Letter;
use sc_text::{Field, print_line};
use std::alloc::{AllocError, Global};

/// The line of a label, a generator and its total.
pub fn infinite_line(
    alloc: Global,
    label: &[u8],
    generator: u8,
    total: i64,
) -> Result<Vec<u8>, AllocError>
    requires { generator < 26 }
    ensures { IfOk result (λ text. text.items ≡ line (label.now ++ 32 ∷ (97 + generator) ∷ 32 ∷ spelling total)) }
{
    let letter = Letter {
        number: generator,
        inverse: false,
    };
    let fields = [Field::Letters(&[letter]), Field::Number(i128::from(total))];
    let mut text = Vec::new(alloc);
    print_line(label, &fields, &mut text)?;
    Ok(text)
}
