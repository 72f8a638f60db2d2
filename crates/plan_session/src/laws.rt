//! Laws of event files and command files.

ghost use Rattle.plan_session.specs.Commands.{HoldsOneListOfCommands};
ghost use Rattle.plan_session.specs.Events.{HoldsOneList};
ghost use Rattle.plan_session.specs.ItemFaults.{EventFilesHaveOneFault, CommandFilesHaveOneFault};

/// The law of event files: a text has at most one list of steps. The function does nothing; its
/// contract is the law.
pub fn one_list()
    ensures { HoldsOneList }
{}

/// The law of command files: a text has at most one list of commands. The function does nothing;
/// its contract is the law.
pub fn one_list_of_commands()
    ensures { HoldsOneListOfCommands }
{}

/// The law of the faults of event files: a text has at most one, and lists no steps then. The
/// function does nothing; its contract is the law.
pub fn one_event_fault()
    ensures { EventFilesHaveOneFault }
{}

/// The law of the faults of command files: a text has at most one, and lists no commands then. The
/// function does nothing; its contract is the law.
pub fn one_command_fault()
    ensures { CommandFilesHaveOneFault }
{}
