//! The arguments of the program.

ghost use Rattle.std.specs.Prelude.{IfSome};
ghost use Rattle.sc_app.specs.Forms.{HasNoForm, bytes_of};

use std::alloc::Global;
use std::rt::Env;
use std::{env, io};

/// The arguments after the program's name, or `None` where there is no memory for them. Where one isn't text, a single
/// empty word stands for them, which is no form.
pub fn words_of_program(rt: &(impl Env + Alloc<A = Global>)) -> Option<Vec<String>> {
    match env::args(rt) {
        Ok(arguments) => arguments.skip(1).collect(rt.alloc()).ok(),
        Err(error) if error.kind() == io::ErrorKind::OutOfMemory => None,
        Err(_) => one_empty_word(rt.alloc()),
    }
}

/// A single empty word, which is no form.
fn one_empty_word(alloc: Global) -> Option<Vec<String>>
    ensures { IfSome result (λ words. HasNoForm (bytes_of words.items)) }
{
    let mut words = Vec::new(alloc);
    words.push(String::new(alloc)).ok()?;
    Some(words)
}
