//! The words of the command line.

ghost use Rattle.std.specs.Prelude.{◌≡◌, ◌↔◌, Some};
ghost use Rattle.sa_main.specs.Words.{IsCommand};

/// What the program can be told to do.
#[derive(Clone, Copy, Debug)]
pub enum Command {
    /// Run the sessions of a script on one thread, in the order of its schedule.
    Step,
    /// Run each session of a script on a thread of its own.
    Run,
}

/// The command that these words are, the program's name left out.
pub fn command_of(words: &[String]) -> Option<Command>
    ensures { (command : Command) → (result ≡ Some command) ↔ IsCommand command words.now }
{
    let [word] = words else {
        return None;
    };
    match word.as_str() {
        "step" => Some(Command::Step),
        "run" => Some(Command::Run),
        _ => None,
    }
}
