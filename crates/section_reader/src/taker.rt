ghost use Rattle.std.specs.Prelude.{◌≡◌, ◌≤◌, ◌++◌, ◌∷◌, [], ℕ, List, length};
ghost use Rattle.section_reader.specs.Sections.{LONGEST_SECTION};

/// What takes the sections of a PID, one after the other.
pub trait SectionTaker {
    /// It took these sections.
    ghost stands: { Self → List (List ℕ) → Type 0 };

    /// What no section changes of it.
    ghost Kept: { Type 0 } = { Unit {0} };

    ghost kept: { Self → Self.Kept };

    /// Takes the next section: its bytes, as many as its length says.
    fn take_section(&mut self, section: &[u8])
        requires { length section.now ≤ LONGEST_SECTION }
        ensures kept { Self.kept self.new ≡ Self.kept self.old }
        ensures taken { (sections : List (List ℕ)) → stands self.old sections
            → stands self.new (sections ++ section.now ∷ []) };
}
