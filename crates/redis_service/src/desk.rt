//! What answers the commands of a worker's clients.
ghost use Rattle.std.specs.Prelude.{◌≡◌, ℕ, List, true, false, All, OnOk, OnErr, IfOk};
ghost use Rattle.bin_stripes.specs.Passes.{PassState, ServesSameMap};
ghost use Rattle.devices.specs.Devices.{CanWrite, TakesBytes, TakesThenFails};
ghost use Rattle.redis_commands.specs.Commands.{answer_by, asked_by, act_by, server_by, fault_by, texts};
ghost use Rattle.redis_commands.specs.Commands.Asked.{OnKey};
ghost use Rattle.redis_commands.specs.Limits.{IsKey, IsOfConnection, IsWithinLimits};
ghost use Rattle.redis_service.specs.Answers.{AnswersKey, AnswersKeys};
ghost use Rattle.redis_service.specs.Commands.{AnswersCommand, AnswersRead, AnswersWords, read_of};
ghost use Rattle.redis_service.specs.Saving.{AnswersInfo, AnswersServer};
ghost use Rattle.redis_service.specs.Sending.{Sends};
ghost use Rattle.redis_service.specs.Sweeps.{Sweeps};
ghost use Rattle.redis_service.specs.States.{is_authenticated};
ghost use Rattle.redis_service.specs.Stops.{Stops, AnswersAll, FailsAt, TellsLast, Taken};
ghost use Rattle.redis_service.specs.Talks.{AnswersPiece, BreaksPiece};

use crate::calls::MapAt;
use crate::changing::{NOT_KEPT, is_refused};
use crate::clients::{answer_clients, tell_of};
use crate::connection::answer_connection;
use crate::keyed::answer_key;
use crate::lines::NO_MEMORY_LINE;
use crate::moment::Moment;
use crate::programs::{Programs, answer_program};
use crate::reader::Reader;
use crate::reply::{Replied, count_refused};
use crate::room::Room;
use crate::saving::{later_line, numbers, put_info, save, save_later, save_line, shut_down};
use crate::several::{count_each, count_of, get_each, put_each, remove_each};
use crate::slowlogs::{answer_slowlog, begin, end};
use crate::talk::RedisTalk;
use crate::walks::{Ground, answer_walk};
use bin_stripes::{Pass, StripedMap};
use bumpalo::Bump;
use devices::{Failed, Sink, write_all};
use key_walks::count_all;
use redis_commands::{
    Command, CommandFault, KeyAct, KeysAct, Name, ServerCommand, command_before_auth, kind_of,
    name_of, named_command_of,
};
use redis_scripts::Scripts;
use resp::{Next, NextFault, put_error};
use server_state::WorkerState;
use std::alloc::Global;
use std::marker::Model;
use std::mem;
use std::sync::Wait;

/// Why a talk ended at a piece.
#[derive(Clone, Copy, Debug, PartialEq, Eq)]
pub enum TalkEnd {
    /// The client asked for it, or its bytes can't be read as commands, or memory to read on or to keep them was refused. All is
    /// answered that is owed.
    Over,
    /// Memory for the piece was refused, and the piece was not taken.
    NoMemory,
    /// A write failed. The sink has a beginning of the answers owed to it.
    WriteFailed,
}

/// Room of a worker for the commands of all its clients, and the map that they are about.
#[derive(Drop)]
pub struct RedisDesk<'a, 's> {
    alloc: Global,
    map: &'a StripedMap,
    scripts: &'a Scripts<'s>,
    state: WorkerState<'a>,
    room: Room,
    /// The number of commands about the whole map so far.
    walks: u64,
    /// The kind of the last command of this turn, by its number from 1 on.
    noted: u64,
}

impl<'a, 's> Model for RedisDesk<'a, 's> {
    ghost use Rattle.atomic_table.specs.Seated.{TableId, table_id_coded};

    ghost Value = { TableId };

    ghost coded = { table_id_coded };

    ghost view = { λ d. d.map.now };
}

/// Tells why nothing more is read from this rest, if it is to be told, and keeps the rest if a command begins in it.
fn finish<W: Sink>(
    alloc: Global,
    talk: &mut RedisTalk<'_>,
    fault: Option<NextFault>,
    rest: &[u8],
    sink: &mut W,
) -> Result<(), TalkEnd>
    requires sink { CanWrite (W.state sink.old) }
    requires stops { Stops fault talk.old rest.now }
    ensures tells { TellsLast result (W.state sink.old) (W.state sink.new) rest.now talk.old talk.new }
    ensures number { talk.new.number ≡ talk.old.number }
{
    if talk.is_over() {
        talk.end(alloc);
        return Err(TalkEnd::Over);
    }
    if let Some(NextFault::Faulty(fault)) = fault {
        talk.end(alloc);
        return match put_error(sink, fault.message().as_slice()) {
            Ok(()) => Err(TalkEnd::Over),
            Err(Failed) => Err(TalkEnd::WriteFailed),
        };
    }
    if fault.is_none() {
        if talk.keep(alloc, rest) {
            return Ok(());
        }
    }
    talk.end(alloc);
    match write_all(sink, NO_MEMORY_LINE) {
        Ok(()) => Err(TalkEnd::Over),
        Err(Failed) => Err(TalkEnd::WriteFailed),
    }
}

/// Says why words are no command. The talk is over after what looks like a request of the web, which is not answered.
fn refuse<W: Sink>(
    talk: &mut RedisTalk<'_>,
    fault: &CommandFault<'_>,
    sink: &mut W,
) -> Result<(), Failed>
    requires { CanWrite (W.state sink.old) }
    ensures number { talk.new.number ≡ talk.old.number }
    ensures locked { is_authenticated talk.new ≡ is_authenticated talk.old }
    ensures answers { (now : ℕ) (pass : PassState) → (written : List ℕ) × Sends result (W.state sink.old) (W.state sink.new) written
        × AnswersRead now talk.old pass (Err (fault_by fault.now)) written talk.new pass }
{
    match fault {
        CommandFault::WebRequest => {
            talk.leave();
            Ok(())
        }
        _ => put_error(sink, fault.text().as_slice()),
    }
}

/// Returns the number by which the kind of a command is noted; 0 if the words name none.
fn noted_kind(name: Option<Name>, words: &[&[u8]]) -> u64 {
    match name {
        Some(name) => (kind_of(name, words) as u64).wrapping_add(1),
        None => 0,
    }
}

/// Reads the words of a client: what they ask for, or their fault. Notes the kind of the command, if they name one.
fn read<'w>(
    noted: &mut u64,
    talk: &RedisTalk<'_>,
    words: &'w [&'w [u8]],
    now: u64,
) -> Result<Command<'w>, CommandFault<'w>>
    ensures asked { answer_by result ≡ read_of now (is_authenticated talk.now) (texts words.now) }
    ensures limits { IfOk result (λ c. IsWithinLimits (asked_by c)) }
    ensures open { is_authenticated talk.now ≡ false → IfOk result (λ c. IsOfConnection (asked_by c)) }
{
    if talk.is_authenticated() {
        let (name, command) = named_command_of(words, now);
        *noted = noted_kind(name, words);
        command
    } else {
        *noted = noted_kind(name_of(words), words);
        command_before_auth(words)
    }
}

impl<'a, 's> RedisDesk<'a, 's> {
    /// Makes the room, of a worker that knows this of its server. Takes no memory.
    pub fn new(
        alloc: Global,
        map: &'a StripedMap,
        scripts: &'a Scripts<'s>,
        state: WorkerState<'a>,
    ) -> RedisDesk<'a, 's>
        ensures { result ≡ map.now }
    {
        RedisDesk {
            alloc,
            map,
            scripts,
            state,
            room: Room::new(),
            walks: 0,
            noted: 0,
        }
    }

    /// Returns the map, and the time of its calls.
    fn at(&self, now: u64) -> MapAt<'a>
        ensures map { result.map.now ≡ self.now }
        ensures time { result.time ≡ now }
    {
        MapAt {
            map: self.map,
            time: now,
            counts: self.state.counts,
        }
    }

    /// Returns what the commands of programs are about.
    fn programs(&self, now: u64) -> Programs<'a, 's>
        ensures map { result.at.map.now ≡ self.now }
        ensures time { result.at.time ≡ now }
    {
        Programs {
            alloc: self.alloc,
            at: self.at(now),
            scripts: self.scripts,
        }
    }

    /// Answers a command about one key.
    fn answer_key<H: Wait, W: Sink>(
        &mut self,
        moment: &Moment<'_, H>,
        pass: &mut Pass,
        key: &[u8],
        act: &KeyAct<'_>,
        sink: &mut W,
    ) -> Result<(), Failed>
        requires map { pass.old.map ≡ self.old }
        requires limits { IsWithinLimits (OnKey key.now (act_by act.now)) }
        requires sink { CanWrite (W.state sink.old) }
        ensures desk { self.new ≡ self.old }
        ensures same { pass.new.map ≡ self.old }
        ensures passes { pass.new.view.passes ≡ pass.old.view.passes }
        ensures numbers { pass.new.view.numbers ≡ pass.old.view.numbers }
        ensures answers { (written : List ℕ) × Sends result (W.state sink.old) (W.state sink.new) written
            × AnswersKey moment.now.time pass.old key.now (act_by act.now) written pass.new }
    {
        self.room.key.set_from(key);
        let at = self.at(moment.time);
        let replied = answer_key(moment.rt, &at, pass, &mut self.room, act);
        count_refused(self.state.counts, replied);
        replied.send(self.room.found.as_slice(), sink)
    }

    /// Answers a command about several keys.
    fn answer_keys<H: Wait, W: Sink>(
        &mut self,
        moment: &Moment<'_, H>,
        pass: &mut Pass,
        keys: &[&[u8]],
        act: KeysAct,
        sink: &mut W,
    ) -> Result<(), Failed>
        requires map { pass.old.map ≡ self.old }
        requires keys { All IsKey (texts keys.now) }
        requires sink { CanWrite (W.state sink.old) }
        ensures desk { self.new ≡ self.old }
        ensures same { pass.new.map ≡ self.old }
        ensures passes { pass.new.view.passes ≡ pass.old.view.passes }
        ensures numbers { pass.new.view.numbers ≡ pass.old.view.numbers }
        ensures answers { (written : List ℕ) × Sends result (W.state sink.old) (W.state sink.new) written
            × AnswersKeys moment.now.time pass.old (texts keys.now) act written pass.new }
    {
        let at = self.at(moment.time);
        match act {
            KeysAct::GetEach => get_each(moment.rt, &at, pass, &mut self.room, keys, sink),
            KeysAct::Delete => {
                let count = remove_each(moment.rt, &at, pass, &mut self.room, keys);
                count_of(count).send(&[], sink)
            }
            KeysAct::CountPresent => {
                let count = count_each(moment.rt, &at, pass, &mut self.room, keys);
                count_of(count).send(&[], sink)
            }
        }
    }

    /// Answers `INFO`.
    fn answer_info<H: Wait, W: Sink>(
        &mut self,
        moment: &Moment<'_, H>,
        pass: &mut Pass,
        sections: &[&[u8]],
        sink: &mut W,
    ) -> Result<(), Failed>
        requires map { pass.old.map ≡ self.old }
        requires sink { CanWrite (W.state sink.old) }
        ensures desk { self.new ≡ self.old }
        ensures same { pass.new.map ≡ self.old }
        ensures passes { pass.new.view.passes ≡ pass.old.view.passes }
        ensures numbers { pass.new.view.numbers ≡ pass.old.view.numbers }
        ensures answers { (written : List ℕ) × Sends result (W.state sink.old) (W.state sink.new) written
            × AnswersInfo pass.old (texts sections.now) written pass.new }
    {
        let keys = count_all(moment.rt, self.map, pass);
        let server = self.state.server;
        let info = numbers(server, moment.time, keys);
        put_info(self.alloc, sections, &info, server, sink)
    }

    /// Answers a command of the server.
    fn answer_server<H: Wait, W: Sink>(
        &mut self,
        moment: &Moment<'_, H>,
        pass: &mut Pass,
        talk: &mut RedisTalk<'_>,
        command: &ServerCommand<'_>,
        sink: &mut W,
    ) -> Result<(), Failed>
        requires map { pass.old.map ≡ self.old }
        requires sink { CanWrite (W.state sink.old) }
        ensures desk { self.new ≡ self.old }
        ensures same { pass.new.map ≡ self.old }
        ensures passes { pass.new.view.passes ≡ pass.old.view.passes }
        ensures numbers { pass.new.view.numbers ≡ pass.old.view.numbers }
        ensures number { talk.new.number ≡ talk.old.number }
        ensures answers { (written : List ℕ) × Sends result (W.state sink.old) (W.state sink.new) written
            × AnswersServer talk.old pass.old (server_by command.now) written talk.new pass.new }
    {
        let server = self.state.server;
        match *command {
            ServerCommand::Info { sections } => self.answer_info(moment, pass, sections, sink),
            ServerCommand::Save => save_line(save(moment.rt, server)).send(&[], sink),
            ServerCommand::SaveLater => later_line(save_later(server)).send(&[], sink),
            ServerCommand::LastSaved => {
                let seconds = server.last_save() / 1000;
                Replied::Count(seconds).send(&[], sink)
            }
            ServerCommand::Shutdown { save } => shut_down(server, talk, save, sink),
            ServerCommand::Clients(command) => {
                let number = talk.number();
                server.clients().asks(moment.rt, number, self.noted);
                answer_clients(moment, self.alloc, server.clients(), talk, &command, sink)
            }
            ServerCommand::Slowlog(command) => {
                answer_slowlog(moment.rt, self.alloc, server.slow(), command, sink)
            }
        }
    }

    /// Answers a command.
    fn answer_command<H: Wait, W: Sink>(
        &mut self,
        moment: &Moment<'_, H>,
        pass: &mut Pass,
        talk: &mut RedisTalk<'_>,
        command: &Command<'_>,
        sink: &mut W,
    ) -> Result<(), Failed>
        requires map { pass.old.map ≡ self.old }
        requires limits { IsWithinLimits (asked_by command.now) }
        requires sink { CanWrite (W.state sink.old) }
        ensures desk { self.new ≡ self.old }
        ensures same { pass.new.map ≡ self.old }
        ensures passes { pass.new.view.passes ≡ pass.old.view.passes }
        ensures numbers { pass.new.view.numbers ≡ pass.old.view.numbers }
        ensures number { talk.new.number ≡ talk.old.number }
        ensures answers { (written : List ℕ) × Sends result (W.state sink.old) (W.state sink.new) written
            × AnswersCommand moment.now.time talk.old pass.old (asked_by command.now) written talk.new pass.new }
    {
        match *command {
            Command::OnKey { key, act } => self.answer_key(moment, pass, key, &act, sink),
            Command::OnKeys { keys, act } => self.answer_keys(moment, pass, keys, act, sink),
            Command::SetEach { words } => {
                let at = self.at(moment.time);
                let replied = put_each(moment.rt, &at, pass, &mut self.room, words);
                count_refused(self.state.counts, replied);
                replied.send(&[], sink)
            }
            Command::Connection(command) => {
                let server = self.state.server;
                let least = server.slow().least();
                let sent = answer_connection(self.alloc, least, talk, &command, sink);
                tell_of(moment.rt, server.clients(), talk, &command);
                sent
            }
            Command::Server(command) => self.answer_server(moment, pass, talk, &command, sink),
            Command::Walk(command) => {
                self.state.counts.count_walk();
                self.walks = self.walks.wrapping_add(1);
                let ground = Ground {
                    alloc: self.alloc,
                    map: self.map,
                    number: self.walks,
                    time: moment.time,
                };
                answer_walk(moment.rt, &ground, pass, &command, sink)
            }
            Command::Program(command) => {
                let programs = self.programs(moment.time);
                answer_program(moment.rt, &programs, pass, &mut self.room, &command, sink)
            }
        }
    }

    /// Answers the words of a command.
    fn answer<H: Wait, W: Sink>(
        &mut self,
        moment: &Moment<'_, H>,
        pass: &mut Pass,
        talk: &mut RedisTalk<'_>,
        words: &[&[u8]],
        sink: &mut W,
    ) -> Result<(), Failed>
        requires map { pass.old.map ≡ self.old }
        requires sink { CanWrite (W.state sink.old) }
        ensures desk { self.new ≡ self.old }
        ensures same { pass.new.map ≡ self.old }
        ensures passes { pass.new.view.passes ≡ pass.old.view.passes }
        ensures numbers { pass.new.view.numbers ≡ pass.old.view.numbers }
        ensures number { talk.new.number ≡ talk.old.number }
        ensures answers { (written : List ℕ) × Sends result (W.state sink.old) (W.state sink.new) written
            × AnswersWords moment.now.time moment.now.refuses talk.old pass.old (texts words.now) written talk.new pass.new }
    {
        let read = read(&mut self.noted, talk, words, moment.time);
        self.state.counts.count_command(self.noted as usize);
        match read {
            Ok(command) => {
                if is_refused(moment.refuses, &command) {
                    return put_error(sink, NOT_KEPT);
                }
                let server = self.state.server;
                let timer = begin(server.slow(), &command);
                let sent = self.answer_command(moment, pass, talk, &command, sink);
                end(timer, moment, server, talk, words);
                sent
            }
            Err(fault) => refuse(talk, &fault, sink),
        }
    }

    /// Answers the commands that the reader reads, one after the other, until the talk is over or there is none. Returns why there is
    /// none.
    fn answer_all<'b: 'w, 'w, H: Wait, W: Sink>(
        &mut self,
        moment: &Moment<'_, H>,
        pass: &mut Pass,
        talk: &mut RedisTalk<'_>,
        reader: &mut Reader<'b, 'w>,
        sink: &mut W,
    ) -> Result<Option<NextFault>, Failed>
        requires map { pass.old.map ≡ self.old }
        requires sink { CanWrite (W.state sink.old) }
        ensures desk { self.new ≡ self.old }
        ensures same { pass.new.map ≡ self.old }
        ensures passes { pass.new.view.passes ≡ pass.old.view.passes }
        ensures numbers { pass.new.view.numbers ≡ pass.old.view.numbers }
        ensures number { talk.new.number ≡ talk.old.number }
        ensures ok { IfOk result (λ fault. AnswersAll moment.now.time moment.now.refuses (W.state sink.old) (W.state sink.new) talk.old pass.old reader.old.rest.now fault talk.new pass.new reader.new.rest.now) }
        ensures err { OnErr result (FailsAt moment.now.time moment.now.refuses (W.state sink.old) (W.state sink.new) talk.old pass.old reader.old.rest.now talk.new pass.new) }
    {
        while !talk.is_over() {
            match reader.next() {
                Ok(Next::Command(_)) => self.answer(moment, pass, talk, &reader.words, sink)?,
                Ok(Next::Nothing(_)) => {}
                Ok(Next::More) => return Ok(None),
                Err(fault) => return Ok(Some(fault)),
            }
        }
        Ok(None)
    }

    /// Answers the commands that the bytes begin with. Returns why there is none left, and the bytes that are left.
    fn answer_bytes<'b, H: Wait, W: Sink>(
        &mut self,
        moment: &Moment<'_, H>,
        pass: &mut Pass,
        talk: &mut RedisTalk<'_>,
        bytes: &'b [u8],
        sink: &mut W,
    ) -> Result<(Option<NextFault>, &'b [u8]), Failed>
        requires map { pass.old.map ≡ self.old }
        requires sink { CanWrite (W.state sink.old) }
        ensures desk { self.new ≡ self.old }
        ensures same { pass.new.map ≡ self.old }
        ensures passes { pass.new.view.passes ≡ pass.old.view.passes }
        ensures numbers { pass.new.view.numbers ≡ pass.old.view.numbers }
        ensures number { talk.new.number ≡ talk.old.number }
        ensures ok { IfOk result (λ left. AnswersAll moment.now.time moment.now.refuses (W.state sink.old) (W.state sink.new) talk.old pass.old bytes.now left.0 talk.new pass.new left.1.now) }
        ensures err { OnErr result (FailsAt moment.now.time moment.now.refuses (W.state sink.old) (W.state sink.new) talk.old pass.old bytes.now talk.new pass.new) }
    {
        let arena = Bump::new(self.alloc);
        let mut reader = Reader::new(self.alloc, bytes, &arena);
        self.noted = 0;
        let fault = self.answer_all(moment, pass, talk, &mut reader, sink)?;
        self.state.counts.note_command(self.noted);
        Ok((fault, reader.rest))
    }

    /// Answers the commands that the bytes begin with, and keeps what follows the last whole one.
    fn take_bytes<H: Wait, W: Sink>(
        &mut self,
        moment: &Moment<'_, H>,
        pass: &mut Pass,
        talk: &mut RedisTalk<'_>,
        bytes: &[u8],
        sink: &mut W,
    ) -> Result<(), TalkEnd>
        requires map { pass.old.map ≡ self.old }
        requires sink { CanWrite (W.state sink.old) }
        ensures desk { self.new ≡ self.old }
        ensures same { pass.new.map ≡ self.old }
        ensures passes { pass.new.view.passes ≡ pass.old.view.passes }
        ensures numbers { pass.new.view.numbers ≡ pass.old.view.numbers }
        ensures number { talk.new.number ≡ talk.old.number }
        ensures taken { Taken moment.now.time moment.now.refuses result (W.state sink.old) (W.state sink.new) talk.old pass.old bytes.now talk.new pass.new }
    {
        let Ok((fault, rest)) = self.answer_bytes(moment, pass, talk, bytes, sink) else {
            talk.end(self.alloc);
            return Err(TalkEnd::WriteFailed);
        };
        finish(self.alloc, talk, fault, rest, sink)
    }

    /// Answers the commands that held bytes begin with, and keeps what follows the last whole one. If none is whole the bytes stay in
    /// place, so a long command is not copied with each piece.
    fn take_held<H: Wait, W: Sink>(
        &mut self,
        moment: &Moment<'_, H>,
        pass: &mut Pass,
        talk: &mut RedisTalk<'_>,
        held: Vec<u8>,
        sink: &mut W,
    ) -> Result<(), TalkEnd>
        requires map { pass.old.map ≡ self.old }
        requires sink { CanWrite (W.state sink.old) }
        ensures desk { self.new ≡ self.old }
        ensures same { pass.new.map ≡ self.old }
        ensures passes { pass.new.view.passes ≡ pass.old.view.passes }
        ensures numbers { pass.new.view.numbers ≡ pass.old.view.numbers }
        ensures number { talk.new.number ≡ talk.old.number }
        ensures taken { Taken moment.now.time moment.now.refuses result (W.state sink.old) (W.state sink.new) talk.old pass.old held.items talk.new pass.new }
    {
        let Ok((fault, rest)) = self.answer_bytes(moment, pass, talk, &held, sink) else {
            talk.end(self.alloc);
            return Err(TalkEnd::WriteFailed);
        };
        if rest.len() == held.len() && fault.is_none() && !talk.is_over() {
            talk.hold(held);
            return Ok(());
        }
        finish(self.alloc, talk, fault, rest, sink)
    }

    /// Answers the commands that this piece completes, in order, each into the sink before it looks at the next one. Their calls are
    /// made at the time of this moment; if it refuses changes, commands that may change the map make none. Keeps what follows the last
    /// whole command. An `Err` says why the talk ended. Waits until the stripes of the commands' keys are free.
    pub fn take<H: Wait, W: Sink>(
        &mut self,
        moment: &Moment<'_, H>,
        pass: &mut Pass,
        talk: &mut RedisTalk<'_>,
        piece: &[u8],
        sink: &mut W,
    ) -> Result<(), TalkEnd>
        requires map { pass.old.map ≡ self.old }
        requires sink { CanWrite (W.state sink.old) }
        requires open { talk.old.is_over ≡ false }
        ensures desk { self.new ≡ self.old }
        ensures same { ServesSameMap pass.old pass.new }
        ensures numbers { pass.new.view.numbers ≡ pass.old.view.numbers }
        ensures number { talk.new.number ≡ talk.old.number }
        // The piece was taken, and all its commands are answered.
        ensures ok { OnOk result ((talk.new.is_over ≡ false) × ((written : List ℕ)
            × TakesBytes (W.state sink.old) (W.state sink.new) written
            × AnswersPiece moment.now.time moment.now.refuses talk.old pass.old piece.now written talk.new pass.new)) }
        // The client asked for the end, or its bytes have a fault, whose text ends the answers.
        ensures over { result ≡ Err TalkEnd.Over → (talk.new.is_over ≡ true) × ((written : List ℕ)
            × TakesBytes (W.state sink.old) (W.state sink.new) written
            × AnswersPiece moment.now.time moment.now.refuses talk.old pass.old piece.now written talk.new pass.new) }
        ensures memory { result ≡ Err TalkEnd.NoMemory
            → (talk.new ≡ talk.old) × (pass.new ≡ pass.old) × (W.state sink.new ≡ W.state sink.old) }
        // One command was made whose answer is not wholly written, and none after it.
        ensures write { result ≡ Err TalkEnd.WriteFailed → ((written : List ℕ)
            × TakesThenFails (W.state sink.old) (W.state sink.new) written
            × BreaksPiece moment.now.time moment.now.refuses talk.old pass.old piece.now written talk.new pass.new) }
    {
        if talk.rest.is_empty() {
            return self.take_bytes(moment, pass, talk, piece, sink);
        }
        let mut held = mem::replace(&mut talk.rest, Vec::new(self.alloc));
        if held.extend_from_slice(piece).is_err() {
            talk.rest = held;
            return Err(TalkEnd::NoMemory);
        }
        self.take_held(moment, pass, talk, held, sink)
    }

    /// Takes entries away whose time is over at `now`: some of each stripe, one a hold. Returns whether some may be left that are over
    /// already. Waits until the stripes are free.
    pub fn sweep<H: Wait>(&mut self, rt: &H, pass: &mut Pass, now: u64) -> bool
        requires map { pass.old.map ≡ self.old }
        ensures desk { self.new ≡ self.old }
        ensures same { ServesSameMap pass.old pass.new }
        ensures numbers { pass.new.view.numbers ≡ pass.old.view.numbers }
        ensures sweeps { Sweeps now pass.old pass.new }
    {
        let counts = self.state.counts;
        self.room.sweeper.sweep(rt, self.map, pass, now, counts)
    }

    /// Returns when to sweep next, in milliseconds since the epoch, or none if no command of this desk set a deadline.
    pub fn next_sweep(&self) -> Option<u64> {
        self.room.sweeper.next()
    }
}
