//! Laws of the definitions that the contracts cite.
ghost use Rattle.std.specs.Prelude.{◌≡◌, ℤ};
ghost use Rattle.sc_whole.specs.Spelling.{spelling};

/// No two numbers have one spelling: what is printed reads as one number alone.
pub fn spelling_has_one_reading()
    ensures { (x y : ℤ) → spelling x ≡ spelling y → x ≡ y }
{}
