//! The rounds of a client.
ghost use Rattle.std.specs.Prelude.{◌≡◌, ◌<◌, ◌≤◌, ◌++◌, OnOk};
ghost use Rattle.load_maker.specs.Rounds.{numbered, round_of, round_instrs, round_messages, no_args};

use script_types::{Args, Instr};
use sym_base::{Arg, Name, NoMemory, read_name};

/// The kinds of round.
#[derive(Clone, Copy)]
pub enum Round {
    /// A message is sent, and the client waits for its completion.
    Call,
    /// A message is sent with a status, and then the client waits for that.
    Send,
    /// A mutex is made and closed.
    Create,
    /// 64 bytes of memory are filled.
    Fill,
}

impl Round {
    /// The kind that a number draws.
    #[tactic(auto, unfolding(crate::specs::Rounds::round_of))]
    pub fn of(number: u64) -> Round
        ensures { result ≡ round_of number }
    {
        match number % 4 {
            0 => Round::Call,
            1 => Round::Send,
            2 => Round::Create,
            _ => Round::Fill,
        }
    }

    /// The messages that the round sends, at most one.
    pub fn messages(self) -> u32
        ensures { result ≡ round_messages self }
    {
        match self {
            Round::Call | Round::Send => 1,
            Round::Create | Round::Fill => 0,
        }
    }
}

/// A letter and a client's digit, as a name.
pub fn numbered(letter: u8, client: u8) -> Name
    requires letter { 97 ≤ letter }
    requires lower_case { letter ≤ 122 }
    requires client { client < 4 }
    ensures { result ≡ numbered letter client }
{
    read_name(&[letter, b'0' + client]).unwrap()
}

/// The four arguments of each message, which the server doesn't read.
fn no_args() -> Args
    ensures { result ≡ no_args }
{
    Args(
        Arg::Number(0),
        Arg::Number(0),
        Arg::Number(0),
        Arg::Number(0),
    )
}

/// Adds the instructions of a client's round, which has this place among its rounds, from 0.
pub fn push_round(
    instrs: &mut Vec<Instr>,
    client: u8,
    place: u32,
    round: Round,
) -> Result<(), NoMemory>
    requires { client < 4 }
    ensures { OnOk result (instrs.new.items ≡ instrs.old.items ++ round_instrs client place round) }
{
    match round {
        Round::Call => instrs.push(Instr::Call(0, 1, no_args()))?,
        Round::Send => {
            instrs.push(Instr::Send(0, 2, 0, no_args()))?;
            instrs.push(Instr::WaitFor(0))?;
        }
        Round::Create => {
            instrs.push(Instr::CreateMutex(numbered(b'x', client), 1))?;
            instrs.push(Instr::Close(1))?;
        }
        Round::Fill => instrs.push(Instr::Fill(0, 64, (place % 256) as u8))?,
    }
    Ok(())
}
