//! A file in a form: fetched, tested for its length, and read.

ghost use Rattle.std.specs.Prelude.{◌≡◌, ◌^◌, ◌≤◌, ℕ, List as Seq, length};
ghost use Rattle.gv_base.specs.declared.answers.Place.{Place as PlaceForm};
ghost use Rattle.gv_base.specs.declared.answers.Code.{Code as CodeForm};
ghost use Rattle.gv_top.specs.Files.{longest, asked, outside, any_text, form_of, IsReadIn, IsReadUnder, Opens, IsBlamed};
ghost use Rattle.gv_top.specs.declared.files.Halt.TheVariants as halt;

use gv_base::{Code, FetchFail, Files, Name, NoMemory, Place, Refusal};
use gv_report::Format;
use std::alloc::Global;
use thiserror::Error;

/// The longest text that is read, in bytes.
const LONGEST: u64 = 1 << 24;

/// Why a command comes to no outcome of its own: memory was refused, a file can't be fetched, or its
/// text is refused at a place by a code. This project's own.
#[derive(Debug, Drop, Error)]
pub enum Halt {
    #[error("out of memory")]
    NoMemory,
    #[error("a file can't be fetched")]
    CannotRead {
        name: Name,
    },
    #[error("a text is refused")]
    Refused {
        name: Name,
        place: Place,
        code: Code,
    },
}

impl From<NoMemory> for Halt {
    ghost from_gives = { λ _ e. e ≡ halt.NoMemory };

    fn from(_e: NoMemory) -> Halt {
        Halt::NoMemory
    }
}

/// A form of texts, with its reader. This project's own.
pub trait Form {
    type Value;

    /// Which text spells which value.
    ghost spells: { Self → Seq ℕ → Self.Value → Type 0 };

    /// At which place by which code another text is refused.
    ghost refuses: { Self → Seq ℕ → PlaceForm → CodeForm → Type 0 };

    /// The value that a text of at most 2^24 bytes spells. Another text is refused.
    fn read(&self, alloc: Global, text: &[u8]) -> Result<Self::Value, Refusal>
        requires { length text.now ≤ longest }
        ensures { IsReadIn (form_of spells refuses self.now) text.now result };
}

// The text under a name, which is noted.
fn fetch<F: Files>(
    alloc: Global,
    name: &str,
    files: &mut F,
    format: &mut Format,
) -> Result<Vec<u8>, Halt>
    ensures text { Opens (outside (F.held files.old)) (any_text (λ v. v.items)) name.now format.old result format.new }
    ensures blame { IsBlamed (asked F.held F.faults F.failed files.old files.new) result }
    ensures kept { (other : Seq ℕ) → F.held files.new other ≡ F.held files.old other }
{
    match files.fetch(alloc, name, LONGEST) {
        Ok(text) if text.len() as u64 <= LONGEST => {
            format.note(alloc, text.as_slice())?;
            Ok(text)
        }
        Ok(_) => Err(Halt::Refused {
            name: Name::from_slice(alloc, name.as_bytes())?,
            place: Place { line: 1, column: 1 },
            code: Code::TooLong,
        }),
        Err(FetchFail::Failed) => Err(Halt::CannotRead {
            name: Name::from_slice(alloc, name.as_bytes())?,
        }),
        Err(FetchFail::NoMemory) => Err(Halt::NoMemory),
    }
}

// The value that a text spells, under the name of its file.
fn read_text<R: Form>(alloc: Global, form: &R, name: &str, text: &[u8]) -> Result<R::Value, Halt>
    requires { length text.now ≤ longest }
    ensures { IsReadUnder (form_of R.spells R.refuses form.now) name.now text.now result }
{
    match form.read(alloc, text) {
        Ok(value) => Ok(value),
        Err(Refusal::NoMemory) => Err(Halt::NoMemory),
        Err(Refusal::At { place, code }) => Err(Halt::Refused {
            name: Name::from_slice(alloc, name.as_bytes())?,
            place,
            code,
        }),
    }
}

/// The value of the file under a name, in a form: it is fetched, tested for its length, noted, and read.
pub fn read_file<F: Files, R: Form>(
    alloc: Global,
    form: &R,
    name: &str,
    files: &mut F,
    format: &mut Format,
) -> Result<R::Value, Halt>
    ensures value { Opens (outside (F.held files.old)) (form_of R.spells R.refuses form.now) name.now format.old result format.new }
    ensures blame { IsBlamed (asked F.held F.faults F.failed files.old files.new) result }
    ensures kept { (other : Seq ℕ) → F.held files.new other ≡ F.held files.old other }
{
    let text = fetch(alloc, name, files, format)?;
    read_text(alloc, form, name, text.as_slice())
}
