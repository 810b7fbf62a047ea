//! Which texts spell which drill.
ghost use Rattle.std.specs.Prelude.{◌≡◌, ◌↔◌, List, Some};
ghost use Rattle.crew.specs.declared.drill.Entry.{Entry};
ghost use Rattle.drill_text.specs.Drills.{drill_in};
ghost use Rattle.drill_text.specs.Spelled.{Spells};

/// A text spells a drill exactly where it is the drill's text. So no two drills have one text, and
/// what is no drill's text spells none.
pub fn drill_law(text: &str)
    ensures { (entries : List Entry)
        → (drill_in text.now ≡ Some entries) ↔ Spells text.now entries }
{}
