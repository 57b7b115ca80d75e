//! The clients of a server, of all its workers: who each of them is, what it did last, and which of them are to be let go.
ghost use Rattle.std.specs.Prelude.{◌≡◌, IfSome};

use arrayvec::ArrayVec;
use bpf_model::NoMemory;
use std::alloc::Global;
use std::sync::atomic::{AtomicBool, AtomicU64, Ordering};
use std::sync::{Arc, Mutex, Wait};

/// No map has passes for more workers.
const MOST_WORKERS: u64 = 64;

/// An address, a client's name and what it tells of its library are listed with at most this many bytes.
pub const CLIENT_TEXT_BYTES: usize = 64;

/// A text about a client.
pub type ClientText = ArrayVec<u8, CLIENT_TEXT_BYTES>;

/// Returns the number that tells a client of this worker from all others, if this number of clients came to the worker before.
pub fn client_number(worker: u32, came: u64) -> u64 {
    let own = u64::from(worker).wrapping_add(1);
    came.wrapping_mul(MOST_WORKERS).wrapping_add(own)
}

/// Returns the worker of the client with this number.
fn worker_of(number: u64) -> usize {
    (number.wrapping_sub(1) % MOST_WORKERS) as usize
}

/// Returns the text, or as much of it as is listed.
pub fn client_text(bytes: &[u8]) -> ClientText {
    let mut text = ArrayVec::new();
    let length = bytes.len().min(CLIENT_TEXT_BYTES);
    let _ = text.try_extend_from_slice(&bytes[..length]);
    text
}

/// A client, as it is listed. Times are in milliseconds since the epoch.
#[derive(Drop)]
pub struct ClientView {
    /// The number that `CLIENT ID` tells.
    pub number: u64,
    /// It came to the port of commands; else to the port of frames.
    pub has_commands: bool,
    /// Its address.
    pub address: ClientText,
    /// The address that it came to.
    pub local_address: ClientText,
    /// Its descriptor.
    pub descriptor: u64,
    /// The name that it gave itself.
    pub name: ClientText,
    /// What it told of its library: name and version.
    pub library: ClientText,
    pub version: ClientText,
    /// When it came.
    pub came: u64,
    /// When it was last served.
    pub heard: u64,
    /// What it asked for last, by a number of the one who notes it; 0: nothing so far.
    pub command: u64,
}

impl ClientView {
    /// A client of which nothing is known but its number.
    pub fn stranger(number: u64) -> ClientView
        ensures { result.number ≡ number }
    {
        ClientView {
            number,
            has_commands: true,
            address: ArrayVec::new(),
            local_address: ArrayVec::new(),
            descriptor: 0,
            name: ArrayVec::new(),
            library: ArrayVec::new(),
            version: ArrayVec::new(),
            came: 0,
            heard: 0,
            command: 0,
        }
    }
}

/// What changes at the turns of a client. Its worker writes it without a lock.
#[derive(Drop)]
pub struct ClientPulse {
    heard: AtomicU64,
    command: AtomicU64,
    is_killed: AtomicBool,
}

impl ClientPulse {
    /// The client came at this time.
    fn new(came: u64) -> ClientPulse {
        ClientPulse {
            heard: AtomicU64::new(came),
            command: AtomicU64::new(0),
            is_killed: AtomicBool::new(false),
        }
    }

    /// The client was served at this time, and asked for this last, if it isn't 0.
    pub fn beat(&self, heard: u64, command: u64) {
        self.heard.store(heard, Ordering::Relaxed);
        self.asks(command);
    }

    /// The client asks for this, if it isn't 0.
    fn asks(&self, command: u64) {
        if command != 0 {
            self.command.store(command, Ordering::Relaxed);
        }
    }

    /// Tests whether the client is to be let go.
    pub fn is_killed(&self) -> bool {
        self.is_killed.load(Ordering::SeqCst)
    }
}

/// A row of the table.
#[derive(Drop)]
struct Row {
    view: ClientView,
    pulse: Arc<ClientPulse, Global>,
}

impl Row {
    /// Returns the client as it is now.
    fn view(&self) -> ClientView
        ensures { result.number ≡ self.now.view.number }
    {
        let view = &self.view;
        ClientView {
            number: view.number,
            has_commands: view.has_commands,
            address: client_text(view.address.as_slice()),
            local_address: client_text(view.local_address.as_slice()),
            descriptor: view.descriptor,
            name: client_text(view.name.as_slice()),
            library: client_text(view.library.as_slice()),
            version: client_text(view.version.as_slice()),
            came: view.came,
            heard: self.pulse.heard.load(Ordering::Relaxed),
            command: self.pulse.command.load(Ordering::Relaxed),
        }
    }

    /// Tests whether the client is there, and is not to be let go.
    fn is_here(&self) -> bool {
        !self.pulse.is_killed()
    }
}

/// Which clients are to be let go: those that have all that is given.
#[derive(Clone, Copy, Debug, PartialEq, Eq)]
pub struct KillFilter<'a> {
    pub number: Option<u64>,
    pub address: Option<&'a [u8]>,
    pub local_address: Option<&'a [u8]>,
    /// The number of the one who asks. It is counted, unless it is spared, but not let go: it has to be told first.
    pub own: u64,
    pub spares_own: bool,
}

/// Tests whether the text is this one, if one is given.
fn is_given(given: Option<&[u8]>, text: &ClientText) -> bool {
    match given {
        Some(given) => given == text.as_slice(),
        None => true,
    }
}

impl KillFilter<'_> {
    /// Tests whether the client of this row is meant.
    fn is_of(&self, row: &Row) -> bool {
        let number = row.view.number;
        if !row.is_here() || (self.spares_own && number == self.own) {
            return false;
        }
        self.number.unwrap_or(number) == number
            && is_given(self.address, &row.view.address)
            && is_given(self.local_address, &row.view.local_address)
    }
}

/// How many clients are let go, and whether the one who asked is among them.
#[derive(Clone, Copy, Debug, Default, PartialEq, Eq)]
pub struct Killed {
    pub count: u64,
    pub has_own: bool,
}

impl Killed {
    /// Lets the client of this row go, if it is meant.
    fn after(self, filter: &KillFilter<'_>, row: &Row) -> Killed {
        if !filter.is_of(row) {
            return self;
        }
        let is_own = row.view.number == filter.own;
        if !is_own {
            row.pulse.is_killed.store(true, Ordering::SeqCst);
        }
        Killed {
            count: self.count.wrapping_add(1),
            has_own: self.has_own || is_own,
        }
    }
}

/// What is told of a client's library.
#[derive(Clone, Copy, Debug, PartialEq, Eq)]
pub enum ClientFact {
    /// The name that the client gives itself.
    Name,
    /// The name of its library.
    Library,
    /// The version of its library.
    Version,
}

/// The clients of one worker, by their seats.
#[derive(Drop)]
struct WorkerClients {
    rows: Mutex<Vec<Option<Row>>>,
}

/// Returns the row of the client with this number.
fn row_of(rows: &[Option<Row>], number: u64) -> Option<&Row>
    ensures { IfSome result (λ row. row.now.view.number ≡ number) }
{
    for row in rows {
        if let Some(row) = row {
            if row.view.number == number {
                return Some(row);
            }
        }
    }
    None
}

/// Returns the place of the client with this number.
fn seat_of(rows: &[Option<Row>], number: u64) -> Option<usize> {
    for (seat, row) in rows.iter().enumerate() {
        if let Some(row) = row {
            if row.view.number == number {
                return Some(seat);
            }
        }
    }
    None
}

/// Makes room for this seat. `NoMemory` if a request for memory was refused.
fn make_room(rows: &mut Vec<Option<Row>>, seat: usize) -> Result<(), NoMemory> {
    for _ in rows.len()..=seat {
        rows.push(None)?;
    }
    Ok(())
}

/// Lets go of the rows' clients that are meant.
fn kill_rows(rows: &[Option<Row>], filter: &KillFilter<'_>) -> Killed {
    let mut killed = Killed::default();
    for row in rows {
        if let Some(row) = row {
            killed = killed.after(filter, row);
        }
    }
    killed
}

impl WorkerClients {
    /// Nobody is there. Takes no memory.
    fn new(alloc: Global) -> WorkerClients {
        WorkerClients {
            rows: Mutex::new(Vec::new(alloc)),
        }
    }

    /// A client takes this seat. `NoMemory` if a request for memory was refused.
    fn come<H: Wait>(&self, rt: &H, seat: usize, row: Row) -> Result<(), NoMemory> {
        let mut rows = self.rows.lock(rt);
        let rows = &mut *rows;
        make_room(rows, seat)?;
        if let Some(place) = rows.get_mut(seat) {
            *place = Some(row);
        }
        Ok(())
    }

    /// The client of this seat left.
    fn leave<H: Wait>(&self, rt: &H, seat: usize) {
        let mut rows = self.rows.lock(rt);
        let rows = &mut *rows;
        if let Some(place) = rows.get_mut(seat) {
            *place = None;
        }
    }

    /// Returns the number of seats that clients had so far.
    fn seats<H: Wait>(&self, rt: &H) -> usize {
        self.rows.lock(rt).len()
    }

    /// Returns the client of this seat, if one is there.
    fn at<H: Wait>(&self, rt: &H, seat: usize) -> Option<ClientView> {
        let rows = self.rows.lock(rt);
        let row = rows.get(seat)?.as_ref()?;
        if row.is_here() {
            Some(row.view())
        } else {
            None
        }
    }

    /// Returns the client of this number, if it is there.
    fn find<H: Wait>(&self, rt: &H, number: u64) -> Option<ClientView>
        ensures { IfSome result (λ view. view.number ≡ number) }
    {
        let rows = self.rows.lock(rt);
        let row = row_of(&rows, number)?;
        if row.is_here() {
            Some(row.view())
        } else {
            None
        }
    }

    /// Notes what the client of this number tells of itself.
    fn tell<H: Wait>(&self, rt: &H, number: u64, fact: ClientFact, text: &[u8]) {
        let mut rows = self.rows.lock(rt);
        let rows = &mut *rows;
        let Some(seat) = seat_of(rows, number) else {
            return;
        };
        let Some(Some(row)) = rows.get_mut(seat) else {
            return;
        };
        let text = client_text(text);
        match fact {
            ClientFact::Name => row.view.name = text,
            ClientFact::Library => row.view.library = text,
            ClientFact::Version => row.view.version = text,
        }
    }

    /// The client of this number asks for this, if it isn't 0.
    fn asks<H: Wait>(&self, rt: &H, number: u64, command: u64) {
        let rows = self.rows.lock(rt);
        if let Some(row) = row_of(&rows, number) {
            row.pulse.asks(command);
        }
    }

    /// Lets go of the clients that are meant.
    fn kill<H: Wait>(&self, rt: &H, filter: &KillFilter<'_>) -> Killed {
        let rows = self.rows.lock(rt);
        kill_rows(&rows, filter)
    }
}

/// The table of all clients of a server. Each worker's clients have a lock of their own, which is taken when one comes, leaves or tells
/// its name, and by those who ask for clients.
#[derive(Drop)]
pub struct ServerClients {
    workers: Vec<WorkerClients>,
    /// How often clients were to be let go.
    kills: AtomicU64,
}

impl ServerClients {
    /// The table of this number of workers, without clients. `NoMemory` if a request for memory was refused.
    pub(crate) fn new(alloc: Global, workers: u64) -> Result<ServerClients, NoMemory> {
        let mut all = Vec::new(alloc);
        for _ in 0..workers {
            all.push(WorkerClients::new(alloc))?;
        }
        Ok(ServerClients {
            workers: all,
            kills: AtomicU64::new(0),
        })
    }

    /// This client takes this seat of the worker. Returns what its worker writes at its turns. `NoMemory` if a request for memory was
    /// refused.
    pub fn come<H: Wait>(
        &self,
        rt: &H,
        alloc: Global,
        (worker, seat): (u32, usize),
        view: ClientView,
    ) -> Result<Arc<ClientPulse, Global>, NoMemory> {
        let pulse = Arc::new(alloc, ClientPulse::new(view.came))?;
        let row = Row {
            view,
            pulse: Arc::try_clone(&pulse)?,
        };
        if let Some(clients) = self.workers.get(worker as usize) {
            clients.come(rt, seat, row)?;
        }
        Ok(pulse)
    }

    /// The client of this seat of the worker left.
    pub fn leave<H: Wait>(&self, rt: &H, worker: u32, seat: usize) {
        if let Some(clients) = self.workers.get(worker as usize) {
            clients.leave(rt, seat);
        }
    }

    /// Returns the number of workers.
    pub fn workers(&self) -> usize {
        self.workers.len()
    }

    /// Returns the number of seats that clients of the worker had so far.
    pub fn seats<H: Wait>(&self, rt: &H, worker: usize) -> usize {
        match self.workers.get(worker) {
            Some(clients) => clients.seats(rt),
            None => 0,
        }
    }

    /// Returns the client in this seat of the worker, if one is there.
    pub fn at<H: Wait>(&self, rt: &H, worker: usize, seat: usize) -> Option<ClientView> {
        self.workers.get(worker)?.at(rt, seat)
    }

    /// Returns the client of this number, if it is there.
    pub fn find<H: Wait>(&self, rt: &H, number: u64) -> Option<ClientView>
        ensures { IfSome result (λ view. view.number ≡ number) }
    {
        self.workers.get(worker_of(number))?.find(rt, number)
    }

    /// Notes what the client of this number tells of itself.
    pub fn tell<H: Wait>(&self, rt: &H, number: u64, fact: ClientFact, text: &[u8]) {
        if let Some(clients) = self.workers.get(worker_of(number)) {
            clients.tell(rt, number, fact, text);
        }
    }

    /// The client of this number asks for this now, if it isn't 0.
    pub fn asks<H: Wait>(&self, rt: &H, number: u64, command: u64) {
        if let Some(clients) = self.workers.get(worker_of(number)) {
            clients.asks(rt, number, command);
        }
    }

    /// Lets go of the clients that are meant: each of their workers does it as soon as it looks at `kills`.
    pub fn kill<H: Wait>(&self, rt: &H, filter: &KillFilter<'_>) -> Killed {
        let mut killed = Killed::default();
        for clients in &self.workers {
            let more = clients.kill(rt, filter);
            killed = Killed {
                count: killed.count.wrapping_add(more.count),
                has_own: killed.has_own || more.has_own,
            };
        }
        self.kills.fetch_add(1, Ordering::SeqCst);
        killed
    }

    /// Returns how often clients were to be let go.
    pub fn kills(&self) -> u64 {
        self.kills.load(Ordering::SeqCst)
    }
}
