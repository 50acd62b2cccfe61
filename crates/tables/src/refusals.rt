// The numbers of the refusals, and what they say.
ghost use Rattle.std.specs.Prelude.{◌≡◌, Some};
ghost use Rattle.tables.specs.Stores.{number_of};
ghost use Rattle.tables.specs.Texts.{fault_text};

use crate::fault::StoreFault;
use std::error::Error;
use std::fmt;

impl StoreFault {
    // The number by which users know the refusal; a `From` for u8 would only say the same under another name.
    pub fn number(self) -> u8
        ensures { result ≡ number_of self }
    {
        match self {
            StoreFault::Limits => 5,
            StoreFault::Full => 12,
            StoreFault::NoSave => 13,
        }
    }
}

impl fmt::Display for StoreFault {
    ghost output = { λ e. Some (fault_text e) };

    fn fmt<W: fmt::Write>(&self, f: &mut fmt::Formatter<W>) -> fmt::Result {
        f.write_str(match self {
            StoreFault::Limits => "the variables, the depth or the memory are outside their limits",
            StoreFault::Full => "as many tables are saved as can be",
            StoreFault::NoSave => "no table is saved",
        })
    }
}

impl Error for StoreFault {}
