//! What follows from the definitions alone: each law is the contract of a function that does nothing.
ghost use Rattle.std.specs.Prelude.{◌≡◌, ◌↔◌, ℕ, List};
ghost use Rattle.encapsulated.specs.declared.message.Direction.{Direction};
ghost use Rattle.adapt_bytes.specs.declared.method.Method.{Method};
ghost use Rattle.encapsulated.specs.declared.offsets.Layout.{Layout};
ghost use Rattle.encapsulated.specs.declared.parts.Part.{Part};
ghost use Rattle.encapsulated.specs.Grammar.{AreItems, AreParts};
ghost use Rattle.encapsulated.specs.Layouts.{MayHave, IsLayout};
ghost use Rattle.encapsulated.specs.Laws.{HasOneAnswer, Fits, CanBeRead, StandsInARow};

/// A text has one reading: one list of items, one list of parts, and one layout, whatever message takes it.
pub fn reads_one_way()
    ensures items { (text : List ℕ) (items others : List (List ℕ × ℕ))
        → AreItems text items → AreItems text others → items ≡ others }
    ensures parts { (text : List ℕ) (parts others : List (Part × ℕ))
        → AreParts text parts → AreParts text others → parts ≡ others }
    ensures layout { (text : List ℕ) (method other : Method) (direction opposite : Direction) (layout same : Layout)
        → IsLayout method direction text layout → IsLayout other opposite text same → layout ≡ same }
{}

/// A text is either one layout of a message, or one fault applies; never both.
pub fn has_one_answer()
    ensures { (method : Method) (direction : Direction) (text : List ℕ) → HasOneAnswer method direction text }
{}

/// A layout is read from some text exactly where the message may have it.
pub fn can_be_read()
    ensures { (method : Method) (direction : Direction) (layout : Layout) → Fits layout
        → CanBeRead method direction layout ↔ MayHave method direction layout }
{}

/// The parts of a layout stand in a row, so that an offset may be taken from the next one.
pub fn stands_in_a_row()
    ensures { (method : Method) (direction : Direction) (layout : Layout)
        → MayHave method direction layout → StandsInARow layout }
{}
