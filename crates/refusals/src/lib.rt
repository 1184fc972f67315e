// Why a call refuses: the codes of documents 01 and 02, one variant each.
#![tactic(auto)]

ghost use Rattle.std.specs.Prelude.{◌≡◌};
ghost use Rattle.refusals.specs.Refusals.{code_of};

// In the order of the codes: `WrongSize` is 1.
#[derive(Clone, Copy, Debug, PartialEq, Eq)]
pub enum Refusal {
    WrongSize,
    NoImage,
    WrongLayout,
    WrongNumber,
    WrongDependencies,
    WrongContent,
    Conflict,
    Full,
    HeldLine,
    PastLimit,
    ManyDependencies,
    NotThere,
    WrongForm,
    ZeroNumber,
    PastLog,
    ManyFloors,
}

impl Refusal {
    // The code.
    pub fn code(self) -> u32
        ensures { result ≡ code_of self }
    {
        match self {
            Refusal::WrongSize => 1,
            Refusal::NoImage => 2,
            Refusal::WrongLayout => 3,
            Refusal::WrongNumber => 4,
            Refusal::WrongDependencies => 5,
            Refusal::WrongContent => 6,
            Refusal::Conflict => 7,
            Refusal::Full => 8,
            Refusal::HeldLine => 9,
            Refusal::PastLimit => 10,
            Refusal::ManyDependencies => 11,
            Refusal::NotThere => 12,
            Refusal::WrongForm => 13,
            Refusal::ZeroNumber => 14,
            Refusal::PastLog => 15,
            Refusal::ManyFloors => 16,
        }
    }
}
