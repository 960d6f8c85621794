//! What every command comes to. The laws of the crate below say that it comes to no more than one thing.

ghost use Rattle.ecd_command_laws.specs.Laws.{CommandsEnd};

/// Over told contents a command has a file that is missing, or is due one refusal that its words and files decide, or is accepted.
pub fn commands_end()
    ensures { CommandsEnd }
{}
