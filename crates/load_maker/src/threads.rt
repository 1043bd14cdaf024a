//! The threads of the server and of its clients.
ghost use Rattle.std.specs.Prelude.{◌≡◌, ◌<◌, ◌≤◌, ◌++◌, IfOk, OnOk};
ghost use Rattle.load_maker.specs.Draws.{next, state_after};
ghost use Rattle.load_maker.specs.Made.{served, server_thread, client_thread};
ghost use Rattle.load_maker.specs.Rounds.{rounds_instrs, rounds_messages, client_messages};

use crate::draws::Draws;
use crate::round::{Round, numbered, push_round};
use script_types::{Instr, ThreadDecl};
use std::alloc::Global;
use sym_base::{Items, NoMemory, Slots, read_name};

/// Adds so many pairs of instructions that receive a message and complete it.
fn push_served(instrs: &mut Vec<Instr>, messages: u32) -> Result<(), NoMemory>
    ensures { OnOk result (instrs.new.items ≡ instrs.old.items ++ served messages) }
{
    for _pair in 0..messages {
        instrs.push(Instr::Receive(0, 0))?;
        instrs.push(Instr::Complete(0, 0))?;
    }
    Ok(())
}

/// The server's thread, which serves so many messages.
pub fn server_thread(alloc: Global, messages: u32) -> Result<ThreadDecl, NoMemory>
    ensures { IfOk result (λ thread. thread ≡ server_thread messages) }
{
    let mut instrs = Vec::new(alloc);
    instrs.push(Instr::Server(read_name(b"files").unwrap(), 0))?;
    push_served(&mut instrs, messages)?;
    Ok(ThreadDecl {
        name: read_name(b"sv").unwrap(),
        priority: 30,
        held: false,
        process: Some(0),
        instrs: Items::new(instrs),
    })
}

/// Adds the instructions of a client's rounds, and answers the number of messages that they send.
fn push_rounds(
    instrs: &mut Vec<Instr>,
    draws: &mut Draws,
    client: u8,
    size: u32,
) -> Result<u32, NoMemory>
    requires client { client < 4 }
    requires size { size ≤ 500 }
    ensures state { OnOk result (draws.new.state ≡ state_after draws.old.state size) }
    ensures instrs { OnOk result (instrs.new.items ≡ instrs.old.items ++ rounds_instrs draws.old.state client size) }
    ensures messages { IfOk result (λ n. n ≡ rounds_messages draws.old.state size) }
    ensures few { IfOk result (λ n. n ≤ size) }
{
    let mut messages = 0;
    for place in 0..size {
        let round = Round::of(draws.draw());
        messages += round.messages();
        push_round(instrs, client, place, round)?;
    }
    Ok(messages)
}

/// A client's thread, and the number of messages that its rounds send.
#[derive(Drop)]
pub struct Client {
    pub thread: ThreadDecl,
    pub messages: u32,
}

/// The next client: a draw gives the slots of its session, and each further one a round.
#[tactic(auto, unfolding(crate::specs::Rounds::slots_drawn))]
pub fn next_client(
    alloc: Global,
    draws: &mut Draws,
    client: u8,
    size: u32,
) -> Result<Client, NoMemory>
    requires client { client < 4 }
    requires size { size ≤ 500 }
    ensures state { OnOk result (draws.new.state ≡ state_after (next draws.old.state) size) }
    ensures thread { IfOk result (λ made. made.thread ≡ client_thread draws.old.state client size) }
    ensures messages { IfOk result (λ made. made.messages ≡ client_messages draws.old.state size) }
    ensures few { IfOk result (λ made. made.messages ≤ 500) }
{
    let mut instrs = Vec::new(alloc);
    let slots = Slots::Own(1 + (draws.draw() % 3) as u8);
    instrs.push(Instr::Connect(read_name(b"files").unwrap(), slots, 0))?;
    let messages = push_rounds(&mut instrs, draws, client, size)?;
    let thread = ThreadDecl {
        name: numbered(b'c', client),
        priority: 10 + client,
        held: false,
        process: Some(1 + client),
        instrs: Items::new(instrs),
    };
    Ok(Client { thread, messages })
}
