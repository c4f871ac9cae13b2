//! The grammar of schedules, as laws of the definitions. A function here does nothing: its contract
//! is the law.

ghost use Rattle.std.specs.Prelude.{◌≡◌, ◌↔◌, ℕ, List, Some, Ok, Err};
ghost use Rattle.fed_types.specs.Sites.{Membership};
ghost use Rattle.schedule.specs.declared.command.Command.{Command};
ghost use Rattle.schedule.specs.Commands.{federation_of, command_of};
ghost use Rattle.schedule.specs.Lines.{AreWordsForMembers, command_tokens};
ghost use Rattle.schedule.specs.Plans.{Plan, plan_of};
ghost use Rattle.schedule.specs.Schedules.{IsTextOf, HasFault, IsPlan};
ghost use Rattle.schedule.specs.Texts.{schedule_text};
ghost use Rattle.schedule.specs.Tokens.{IsTextFor, IsHexFor, AreWordsFor};
ghost use Rattle.tokens.specs.Words.{text_of, bytes_of};

/// `text_of` and `bytes_of` say which text a word is, once its escapes are undone, and which bytes
/// its hex digits are.
pub fn texts_law()
    ensures texts { (word text : List ℕ) → IsTextFor word text ↔ (text_of word ≡ Some text) }
    ensures bytes { (word bytes : List ℕ) → IsHexFor word bytes ↔ (bytes_of word ≡ Some bytes) }
{}

/// `command_of` and `federation_of` say which command, or which members, words name: those of the
/// grammar.
pub fn commands_law()
    ensures commands { (words : List (List ℕ)) (command : Command)
        → AreWordsFor words (command_tokens command) ↔ (command_of words ≡ Some command) }
    ensures members { (words : List (List ℕ)) (members : Membership)
        → AreWordsForMembers words members ↔ (federation_of words ≡ Some members) }
{}

/// `plan_of` says which schedule a text is, or what its first line at fault is.
pub fn schedules_law()
    ensures schedules { (text : List ℕ) (plan : Plan)
        → IsTextOf text plan ↔ (plan_of text ≡ Ok plan) }
    ensures faults { (text : List ℕ) (number : ℕ)
        → HasFault text number ↔ (plan_of text ≡ Err number) }
{}

/// The printed text of a schedule is read as that schedule again, whatever its parts are, if each
/// is in its range; and so is the text of each schedule that is read.
pub fn round_trip_law()
    ensures again { (plan : Plan) → IsPlan plan → plan_of (schedule_text plan) ≡ Ok plan }
    ensures in_range { (text : List ℕ) (plan : Plan) → plan_of text ≡ Ok plan → IsPlan plan }
{}
