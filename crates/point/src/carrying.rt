// What the rules ask of a machine, done.
ghost use Rattle.std.specs.Prelude.{◌≡◌, Option};
ghost use Rattle.point.specs.Chains.{Chain, actions_of, command_actions, off_action, off_actions, read_actions, read_result};

use legs::ReadRefusal;
use machine::{KNOWN_LEGS, Machine};
use rules::{Command, Commands, Reading, Switches};

// What is read before a decision, and how the machine took it.
pub fn read_first<M: Machine>(machine: &mut M, reading: Option<Reading>) -> Result<(), ReadRefusal>
    ensures answer { result ≡ read_result reading (M.meaning machine.old) }
    ensures done { Chain M.does machine.old (read_actions reading result) machine.new }
{
    match reading {
        None => Ok(()),
        Some(Reading::Pass) => {
            machine.pass();
            Ok(())
        }
        Some(Reading::Word(leg, word)) => machine.read(leg, word),
    }
}

fn switch_off_if<M: Machine>(machine: &mut M, leg: u16, off: bool)
    ensures { Chain M.does machine.old (off_action leg off) machine.new }
{
    if off {
        machine.switch_off(leg);
    }
}

// From leg 0 on.
fn switch_off<M: Machine>(machine: &mut M, switches: Switches)
    ensures { Chain M.does machine.old (off_actions 0 switches.legs) machine.new }
{
    for (leg, off) in (0..KNOWN_LEGS).zip(&switches.legs) {
        switch_off_if(machine, leg, *off);
    }
}

fn command_all<M: Machine>(machine: &mut M, command: Option<Command>)
    ensures { Chain M.does machine.old (command_actions command) machine.new }
{
    match command {
        None => {}
        Some(Command::DriveTo(end)) => machine.drive(end),
        Some(Command::HaltAll) => machine.halt(),
    }
}

// What was decided, leg by leg, and then for all legs.
pub fn carry_out<M: Machine>(machine: &mut M, commands: Commands)
    ensures { Chain M.does machine.old (actions_of commands) machine.new }
{
    switch_off(machine, commands.off);
    command_all(machine, commands.then);
}
