ghost use Rattle.std.specs.Prelude.{◌≡◌, ◌+◌, ◌++◌, ◌≤◌, IsTrue, length, nat_le, vec_capacity, vec_len};
ghost use Rattle.std.specs.VecDeque.{deque_len};

use crate::calls::Calls;
use crate::fault::{Failed, count_fault};
use crate::listener::Listener;
use crate::memory::{MemorySink, MemorySource};
use std::alloc::{AllocError, Global};
use std::collections::VecDeque;

// The two ends of a connection.
type Connection = (MemorySource, MemorySink);

// How many bytes the address may have.
const ADDRESS_ROOM: usize = 512;

/// Connections for one listener, the first one first, and the numbers of its calls that fail, of
/// `listen`, `twin` and `accept` together and counted from 1.
#[derive(Drop)]
pub struct ConnectionList {
    pub connections: Vec<(MemorySource, MemorySink)>,
    pub failing: Vec<u64>,
}

/// Connections in memory, for itself and for each twin, with a list of calls that fail. It keeps
/// what `listen` was handed, which has no other effect, and the connections that came back. A twin
/// whose number fails is refused as for want of memory.
#[derive(Drop)]
pub struct MemoryListener {
    alloc: Global,
    calls: Calls,
    faults: u64,
    address: Vec<u8>,
    connections: Option<u64>,
    waiting: VecDeque<Connection>,
    returned: Vec<Connection>,
    out: usize,
    lists: VecDeque<ConnectionList>,
    rejoined: Vec<Vec<Connection>>,
    twins: usize,
    ghost address_room: { 512 ≤ vec_capacity address },
    ghost room: { deque_len waiting + vec_len returned + out ≤ vec_capacity returned },
    ghost twin_room: { vec_len rejoined + twins ≤ vec_capacity rejoined },
}

impl MemoryListener {
    ghost use Rattle.std.specs.Prelude.{[], ◌-◌, ◌^◌, IfErr, IfOk, map};
    ghost use Rattle.std.specs.Option.{option_map};
    ghost use Rattle.cat_io.specs.Listening.{IsFresh};
    ghost use Rattle.cat_io.specs.MemoryListeners.{faults_in, heard_by, lists_in, out_of, plan_of, rejoined_to, returned_to, twins_of, waiting_in};
    ghost use Rattle.cat_io.specs.Plans.{planned};

    /// Twins are made of the lists in turn, and have no connections where there is no list.
    pub fn new(
        alloc: Global,
        own: ConnectionList,
        lists: Vec<ConnectionList>,
    ) -> Result<MemoryListener, AllocError>
        ensures waiting { IfOk result (λ l. waiting_in l ≡ own.connections.items) }
        ensures plan { IfOk result (λ l. plan_of l ≡ planned own.failing.items (2 ^ 64 - 1)) }
        ensures lists { IfOk result (λ l. lists_in l ≡ lists.items) }
        ensures fresh { IfOk result (IsFresh heard_by returned_to out_of) }
        ensures rejoined { IfOk result (λ l. rejoined_to l ≡ []) }
        ensures twins { IfOk result (λ l. twins_of l ≡ 0) }
        ensures faults { IfOk result (λ l. faults_in l ≡ 0) }
    {
        match MemoryListener::of_list(alloc, own) {
            Ok(mut listener) => {
                listener.lists = VecDeque::from_vec(lists);
                Ok(listener)
            }
            Err(_) => Err(AllocError),
        }
    }

    // A listener of which no twin is given anything; where there is no room for it, the list.
    fn of_list(alloc: Global, own: ConnectionList) -> Result<MemoryListener, ConnectionList>
        ensures waiting { IfOk result (λ l. waiting_in l ≡ own.connections.items) }
        ensures plan { IfOk result (λ l. plan_of l ≡ planned own.failing.items (2 ^ 64 - 1)) }
        ensures lists { IfOk result (λ l. lists_in l ≡ []) }
        ensures fresh { IfOk result (IsFresh heard_by returned_to out_of) }
        ensures rejoined { IfOk result (λ l. rejoined_to l ≡ []) }
        ensures twins { IfOk result (λ l. twins_of l ≡ 0) }
        ensures faults { IfOk result (λ l. faults_in l ≡ 0) }
        ensures refused { IfErr result (λ list. list ≡ own) }
    {
        let Ok(address) = Vec::with_capacity(alloc, ADDRESS_ROOM) else {
            return Err(own);
        };
        let Ok(returned) = Vec::with_capacity(alloc, own.connections.len()) else {
            return Err(own);
        };
        Ok(MemoryListener {
            alloc,
            calls: Calls::new(own.failing),
            faults: 0,
            address,
            connections: None,
            waiting: VecDeque::from_vec(own.connections),
            returned,
            out: 0,
            lists: VecDeque::new(alloc),
            rejoined: Vec::new(alloc),
            twins: 0,
        })
    }

    /// The address and the number that `listen` was handed last; none of an address of more than
    /// 512 bytes.
    pub fn heard(&self) -> Option<(&[u8], u64)>
        ensures { option_map (λ heard. (heard.0.now, heard.1)) result ≡ heard_by self.now }
    {
        match self.connections {
            Some(connections) => Some((self.address.as_slice(), connections)),
            None => None,
        }
    }

    /// The connections that came back.
    pub fn returned(&self) -> &[(MemorySource, MemorySink)]
        ensures { result.now ≡ returned_to self.now }
    {
        self.returned.as_slice()
    }

    /// The connections that came back to each twin that came back, and behind them those that still
    /// waited there.
    pub fn rejoined(&self) -> &[Vec<(MemorySource, MemorySink)>]
        ensures { map (λ group. group.items) result.now ≡ rejoined_to self.now }
    {
        self.rejoined.as_slice()
    }

    /// How many calls failed, those of twins that came back too.
    pub fn fault_count(&self) -> u64
        ensures { result ≡ faults_in self.now }
    {
        self.faults
    }
}

impl Listener for MemoryListener {
    ghost use Rattle.std.specs.Prelude.{◌-◌, IfOk, IsErr, OnErr, OnOk, drop, is_err, true};
    ghost use Rattle.cat_io.specs.Causes.{HasCause, raised_by, raised_if};
    ghost use Rattle.cat_io.specs.Listening.{Deals, Gives, Hears, IsFresh, OwnStay, Stands, TakesBack, TwinsStay, count_given, count_made};
    ghost use Rattle.cat_io.specs.MemoryListeners.{IsMadeOf, dealt_by, faults_in, heard_by, kept_of, listen_fails, lists_in, out_of, plan_of, rejoined_to, returned_to, twins_of, waiting_in};
    ghost use Rattle.cat_io.specs.Plans.{counted, fails_next};

    type In = MemorySource;

    type Out = MemorySink;

    ghost faults = { faults_in };

    ghost tells = { λ _. true };

    ghost listens = { heard_by };

    ghost waiting = { waiting_in };

    ghost returned = { returned_to };

    ghost rejoined = { rejoined_to };

    ghost out = { out_of };

    ghost twins = { twins_of };

    ghost dealt = { dealt_by };

    /// Fails too where the address has more than 512 bytes.
    fn listen(&mut self, address: &str, connections: u64) -> Result<(), Failed>
        ensures cause { HasCause (faults_in self.old) (faults_in self.new) result }
        ensures hears { Hears true result address.now connections (heard_by self.new) }
        ensures own { OwnStay waiting_in returned_to out_of self.old self.new }
        ensures others { TwinsStay rejoined_to twins_of dealt_by self.old self.new }
        ensures fails { is_err result ≡ listen_fails self.old address.now }
        ensures kept { heard_by self.new ≡ kept_of address.now connections }
        ensures counts { faults_in self.new ≡ raised_if (is_err result) (faults_in self.old) }
        ensures plan { plan_of self.new ≡ counted (plan_of self.old) }
        ensures lists { lists_in self.new ≡ lists_in self.old }
    {
        let fits = keep(&mut self.address, address);
        self.connections = if fits { Some(connections) } else { None };
        if self.calls.next_fails() || !fits {
            return Err(count_fault(&mut self.faults));
        }
        Ok(())
    }

    fn twin(&mut self) -> Result<MemoryListener, AllocError>
        ensures faults { faults_in self.new ≡ faults_in self.old }
        ensures stands { Stands (λ _. true) heard_by self.old self.new }
        ensures own { OwnStay waiting_in returned_to out_of self.old self.new }
        ensures rejoined { rejoined_to self.new ≡ rejoined_to self.old }
        ensures twins { twins_of self.new ≡ twins_of self.old + count_made result }
        ensures faultless { IfOk result (λ twin. faults_in twin ≡ 0) }
        ensures fresh { IfOk result (IsFresh heard_by returned_to out_of) }
        ensures refused { fails_next (plan_of self.old) ≡ true → IsErr result }
        ensures plan { plan_of self.new ≡ counted (plan_of self.old) }
        ensures made { IfOk result (IsMadeOf (lists_in self.old)) }
        ensures lists { OnOk result (lists_in self.new ≡ drop 1 (lists_in self.old)) }
        ensures deals { IfOk result (Deals waiting_in (dealt_by self.old) (dealt_by self.new)) }
        ensures stays { OnErr result (lists_in self.new ≡ lists_in self.old) }
    {
        if self.calls.next_fails() {
            return Err(AllocError);
        }
        let twins = self.twins.checked_add(1).ok_or(AllocError)?;
        self.rejoined.try_reserve(twins)?;
        let twin = match self.lists.pop_front() {
            Some(list) => match MemoryListener::of_list(self.alloc, list) {
                Ok(twin) => twin,
                Err(list) => {
                    self.lists.push_front_reserved(list);
                    return Err(AllocError);
                }
            },
            None => {
                let nothing = ConnectionList {
                    connections: Vec::new(self.alloc),
                    failing: Vec::new(self.alloc),
                };
                MemoryListener::new(self.alloc, nothing, Vec::new(self.alloc))?
            }
        };
        self.twins = twins;
        Ok(twin)
    }

    fn accept(&mut self) -> Result<Option<(MemorySource, MemorySink)>, Failed>
        ensures cause { HasCause (faults_in self.old) (faults_in self.new) result }
        ensures stands { Stands (λ _. true) heard_by self.old self.new }
        ensures gives { Gives (waiting_in self.old) (waiting_in self.new) result }
        ensures returned { returned_to self.new ≡ returned_to self.old }
        ensures out { out_of self.new ≡ out_of self.old + count_given result }
        ensures others { TwinsStay rejoined_to twins_of dealt_by self.old self.new }
        ensures fails { is_err result ≡ fails_next (plan_of self.old) }
        ensures counts { faults_in self.new ≡ raised_if (is_err result) (faults_in self.old) }
        ensures plan { plan_of self.new ≡ counted (plan_of self.old) }
        ensures lists { lists_in self.new ≡ lists_in self.old }
    {
        if self.calls.next_fails() {
            return Err(count_fault(&mut self.faults));
        }
        match self.waiting.pop_front() {
            Some(connection) => {
                self.out += 1;
                Ok(Some(connection))
            }
            None => Ok(None),
        }
    }

    /// One that was not out is dropped.
    fn back(&mut self, input: MemorySource, output: MemorySink)
        ensures faults { faults_in self.new ≡ faults_in self.old }
        ensures stands { Stands (λ _. true) heard_by self.old self.new }
        ensures waiting { waiting_in self.new ≡ waiting_in self.old }
        ensures returned { TakesBack true (out_of self.old) (returned_to self.old)
            (returned_to self.new) (input, output) }
        ensures out { out_of self.new ≡ out_of self.old - 1 }
        ensures others { TwinsStay rejoined_to twins_of dealt_by self.old self.new }
        ensures plan { plan_of self.new ≡ plan_of self.old }
        ensures lists { lists_in self.new ≡ lists_in self.old }
    {
        if self.out == 0 {
            return;
        }
        self.out -= 1;
        self.returned.push_reserved((input, output));
    }

    /// One that was not out is dropped, but its faults are counted.
    fn rejoin(&mut self, twin: MemoryListener)
        ensures faults { faults_in self.new ≡ raised_by (faults_in twin) (faults_in self.old) }
        ensures stands { Stands (λ _. true) heard_by self.old self.new }
        ensures own { OwnStay waiting_in returned_to out_of self.old self.new }
        ensures rejoined { TakesBack true (twins_of self.old) (rejoined_to self.old)
            (rejoined_to self.new) (returned_to twin ++ waiting_in twin) }
        ensures twins { twins_of self.new ≡ twins_of self.old - 1 }
        ensures dealt { dealt_by self.new ≡ dealt_by self.old }
        ensures plan { plan_of self.new ≡ plan_of self.old }
        ensures lists { lists_in self.new ≡ lists_in self.old }
    {
        self.faults = self.faults.saturating_add(twin.faults);
        if self.twins == 0 {
            return;
        }
        self.twins -= 1;
        self.rejoined
            .push_reserved(with_rest(twin.returned, twin.waiting));
    }
}

// Those that came back, and behind them those that wait.
fn with_rest(mut returned: Vec<Connection>, mut waiting: VecDeque<Connection>) -> Vec<Connection>
    requires { deque_len waiting + vec_len returned ≤ vec_capacity returned }
    ensures { result.items ≡ returned.items ++ waiting.items }
{
    while let Some(connection) = waiting.pop_front() {
        returned.push_reserved(connection);
    }
    returned
}

// Keeps an address in its room, where it fits.
fn keep(room: &mut Vec<u8>, address: &str) -> bool
    requires { 512 ≤ vec_capacity room.old }
    ensures fits { result ≡ nat_le (length address.now) 512 }
    ensures kept { IsTrue result → room.new.items ≡ address.now }
    ensures room { 512 ≤ vec_capacity room.new }
{
    room.clear();
    address.len() <= ADDRESS_ROOM && room.extend_from_slice(address.as_bytes()).is_ok()
}
