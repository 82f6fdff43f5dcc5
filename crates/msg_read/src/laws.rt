//! What spellings are.
ghost use Rattle.std.specs.Prelude.{◌≡◌, IsTrue};
ghost use Rattle.fab_base.specs.declared.messages.Message.{Message};
ghost use Rattle.fab_rules.specs.Lists.{IsPrefixOf};
ghost use Rattle.fab_rules.specs.Format.{fields_fit};
ghost use Rattle.fab_rules.specs.Spelling.{spelling_of, content_of};
ghost use Rattle.fab_rules.specs.Statements.{unsigned};

/// Of messages within the ranges, counts and lengths of the format: none has a spelling that begins another's, equal spellings are of
/// equal messages, and equal contents are of equal statements, which differ in their own signature at most.
pub fn spelling_law()
    ensures none_begins_another { (m n : Message) → IsTrue (fields_fit m) → IsTrue (fields_fit n) → IsPrefixOf (spelling_of m) (spelling_of n) → spelling_of m ≡ spelling_of n }
    ensures equal_messages { (m n : Message) → IsTrue (fields_fit m) → IsTrue (fields_fit n) → spelling_of m ≡ spelling_of n → m ≡ n }
    ensures equal_statements { (m n : Message) → IsTrue (fields_fit m) → IsTrue (fields_fit n) → content_of m ≡ content_of n → unsigned m ≡ unsigned n }
{}
