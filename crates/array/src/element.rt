ghost use Rattle.std.specs.Prelude.{◌≡◌, ℕ, ◌≤◌};
ghost use Rattle.array.specs.Elements.{Opens};

// The refusal, number 7, of a word that is no element's.
#[derive(Clone, Copy, PartialEq, Eq)]
pub struct NotAnElement;

// What a word can stand for, each kind under a number of its own.
pub trait Element: Copy {
    const NUMBER: u8;

    ghost NUMBER: { ℕ };

    // The values of the type.
    ghost valid: { Self → Type 0 };

    // The word that an element is stored as.
    ghost packed: { Self → ℕ };

    fn pack(self) -> u64
        ensures word { result ≡ packed self }
        ensures own { valid self };

    fn open(word: u64) -> Result<Self, NotAnElement>
        ensures { Opens valid packed word result };

    ghost least: { 1 ≤ NUMBER };

    ghost most: { NUMBER ≤ 255 };
}
