//! Why a command of a script is unjustified.

ghost use Rattle.std.specs.Prelude.{◌≡◌};
ghost use Rattle.gv_certs.specs.Causes.{cause_name, cause_number};

/// Why a command of a script is unjustified: the first of its premises that fails. This project's own.
#[derive(Clone, Copy, Debug, PartialEq, Eq)]
pub enum Cause {
    /// A variable that the path lacks, or a term without the sort of its place.
    Scope,
    /// A new name that is in use.
    NameTaken,
    /// Another number of names, terms or blocks than there must be.
    Count,
    /// An atom that isn't there.
    NoAtom,
    /// A formula that isn't known.
    NotKnown,
    /// A formula, a term or an atom of another form than there must be.
    Mismatch,
    /// What the own or the shared mode, or the block, doesn't allow.
    Mode,
    /// A bracket that is not closed, or not opened.
    Bracket,
    /// A predicate that a crash doesn't keep.
    NotDurable,
    /// An atom or a predicate that can't be copied.
    NotPersistent,
    /// A token is left.
    HasToken,
    /// The crash condition isn't left.
    CrashBlock,
    /// A path that has not ended, or has ended already.
    PathEnd,
    /// No step since the block's start.
    NoStep,
    /// Another point than there must be.
    WrongPoint,
    /// A listed term that is no sum or difference of whole numbers.
    NotAPlus,
    /// A negative factor of a row that may be above 0.
    Negative,
    /// A number outside 128 bits.
    Wide,
    /// The sums don't show a contradiction.
    NotContradiction,
    /// No such instance of an axiom.
    BadAxiom,
    /// A number that is excepted.
    Excluded,
    /// A block that is missing.
    Missing,
    /// A hole.
    Hole,
}

impl Cause {
    /// The cause's number, from 1 to 23.
    pub fn number(self) -> u8
        ensures { result ≡ cause_number self }
    {
        self as u8 + 1
    }

    /// The cause's name as a report writes it.
    pub fn name(self) -> &'static str
        ensures { result.now ≡ cause_name self }
    {
        match self {
            Cause::Scope => "Scope",
            Cause::NameTaken => "NameTaken",
            Cause::Count => "Count",
            Cause::NoAtom => "NoAtom",
            Cause::NotKnown => "NotKnown",
            Cause::Mismatch => "Mismatch",
            Cause::Mode => "Mode",
            Cause::Bracket => "Bracket",
            Cause::NotDurable => "NotDurable",
            Cause::NotPersistent => "NotPersistent",
            Cause::HasToken => "HasToken",
            Cause::CrashBlock => "CrashBlock",
            Cause::PathEnd => "PathEnd",
            Cause::NoStep => "NoStep",
            Cause::WrongPoint => "WrongPoint",
            Cause::NotAPlus => "NotAPlus",
            Cause::Negative => "Negative",
            Cause::Wide => "Wide",
            Cause::NotContradiction => "NotContradiction",
            Cause::BadAxiom => "BadAxiom",
            Cause::Excluded => "Excluded",
            Cause::Missing => "Missing",
            Cause::Hole => "Hole",
        }
    }
}
