ghost use Rattle.std.specs.Prelude.{◌≡◌, ℕ, Bool, List, Option, Some};
ghost use Rattle.fk_input.specs.declared.fault.Fault.{Fault};
ghost use Rattle.fk_input.specs.Lines.{HaveOneValue, pieces, Reads, ReadsText};

/// Where a line has one value at most, an input has one reading at most.
pub fn reading_is_unique<T>()
    ensures { (is_line : List ℕ → T → Bool) → HaveOneValue is_line
        → (text : List ℕ) (values others : List T) (fault other : Option Fault)
        → ReadsText is_line text values fault → ReadsText is_line text others other → (values ≡ others) × (fault ≡ other) }
{}

/// Whatever its lines mean, an input has a reading.
pub fn reading_exists<T>()
    ensures { (value_of : List ℕ → Option T) (text : List ℕ)
        → (values : List T) × (fault : Option Fault) × Reads (λ line value. value_of line ≡ Some value) 0 1 (pieces text) values fault }
{}
