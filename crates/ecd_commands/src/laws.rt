//! Laws of the table of commands and of its answers.

ghost use Rattle.ecd_commands.specs.Asked.{AskOneThing};
ghost use Rattle.ecd_commands.specs.Ends.{OneIsDue};

/// Words ask for one thing at most.
pub fn words_ask_one_thing()
    ensures { AskOneThing }
{}

/// Words and told contents ask for one refusal at most, and for none where they ask for a text.
pub fn one_is_due()
    ensures { OneIsDue }
{}
