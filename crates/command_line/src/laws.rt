//! Laws on words, each the contract of a function that does nothing.

ghost use Rattle.std.specs.Prelude.{◌≡◌, List, ℕ, Some};
ghost use Rattle.command_line.specs.Line.{Takes, CommandLine, Given, IsLine, GivenByLine, AreOptionNames, line_words, line_given};
ghost use Rattle.command_line.specs.Taking.{taken};

/// What the words behind a command's name give, word by word, is what the command lines give that spell
/// them: each lawful command line of a command is read as what it gives, and what is read is given by a
/// lawful one.
pub fn words_give_what_their_line_gives()
    ensures each { (t : Takes) (line : CommandLine) → AreOptionNames t.options → IsLine t line → taken t (line_words line) ≡ Some (line_given t line) }
    ensures none_else { (t : Takes) (words : List (List ℕ)) (given : List Given) → taken t words ≡ Some given → GivenByLine t words given }
{}
