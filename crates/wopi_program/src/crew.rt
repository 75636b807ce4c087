//! A host's workers: a thread for each listener and its clock, and one for the watch over the host.
ghost use Rattle.std.specs.Prelude.{◌≡◌, ◌≤◌, ◌<◌, ◌+◌, ◌^◌, ◌++◌, ◌∷◌, ℕ, [], length, map, IfOk, slice_index_or, vec_capacity};
ghost use Rattle.std.specs.List.{AllByRecursion, AllZip};
ghost use Rattle.host_server.specs.Working.{MayWork, Works};
ghost use Rattle.turn_lock.specs.Places.{total};
ghost use Rattle.host_table.specs.Close.{weight_of};
ghost use Rattle.host_table.specs.Passes.{IsSamePass, locks_of, own_of, sight_of};
ghost use Rattle.wopi_program.specs.Passes.{IsFreshPass, IsHeaviest, AreReady, AreSplit};
ghost use Rattle.wopi_program.specs.Returned.{AreReturned};
ghost use Rattle.wopi_program.specs.Watched.{AreRight, TellsOf, none_raised};

use crate::watching::{Marks, lowered, watch};
use host_core::Store;
use host_server::{Desk, WorkEnd, WorkMeant, Worker, work};
use host_table::{Host, Pass, SplitRoom};
use outside::{Clock, Listener, Sink};
use std::alloc::Global;
use std::mem;
use std::sync::Wait;
use std::sync::atomic::{AtomicBool, Ordering};
use std::thread::{self, Parker, Threads, join_mut};
use wopi_text::Memory;

/// The memory that a host's workers take, all of it before the host is opened.
#[derive(Drop)]
pub(crate) struct Crew<F: Store, N, C> {
    /// How many workers there will be.
    pub count: usize,
    pub splits: Vec<SplitRoom<F>>,
    pub passes: Vec<Pass<F>>,
    pub workers: Vec<Worker<N, C, F>>,
    pub listeners: Vec<N>,
    pub clocks: Vec<C>,
    /// For the passes after the work, and that of the watch.
    pub ended: Vec<Pass<F>>,
    pub ends: Vec<WorkEnd>,
    ghost splits_fit: { length splits.items ≡ count },
    ghost passes_fit: { (passes.items ≡ []) × (count + 1 ≤ vec_capacity passes) },
    ghost workers_fit: { (workers.items ≡ []) × (count ≤ vec_capacity workers) },
    ghost listeners_fit: { (listeners.items ≡ []) × (count ≤ vec_capacity listeners) },
    ghost clocks_fit: { (clocks.items ≡ []) × (count ≤ vec_capacity clocks) },
    ghost ended_fit: { (ended.items ≡ []) × (count + 1 ≤ vec_capacity ended) },
    ghost ends_fit: { (ends.items ≡ []) × (count ≤ vec_capacity ends) },
}

/// Room to split off so many passes.
fn split_rooms<F: Store>(alloc: Global, count: usize) -> Result<Vec<SplitRoom<F>>, Memory>
    ensures { IfOk result (λ rooms. length rooms.items ≡ count) }
{
    let mut rooms = Vec::with_capacity(alloc, count)?;
    'rooms: while rooms.len() < count {
        let room = SplitRoom::new(alloc)?;
        rooms.push(room)?;
    }
    Ok(rooms)
}

/// Memory for so many workers.
pub(crate) fn crew_of<F: Store, N: Drop, C: Drop>(
    alloc: Global,
    count: usize,
) -> Result<Crew<F, N, C>, Memory>
    requires { count ≤ 1024 }
    ensures { IfOk result (λ crew. crew.count ≡ count) }
{
    let splits = split_rooms(alloc, count)?;
    let passes = Vec::with_capacity(alloc, count + 1)?;
    let workers = Vec::with_capacity(alloc, count)?;
    let listeners = Vec::with_capacity(alloc, count)?;
    let clocks = Vec::with_capacity(alloc, count)?;
    let ended = Vec::with_capacity(alloc, count + 1)?;
    let ends = Vec::with_capacity(alloc, count)?;
    Ok(Crew {
        count,
        splits,
        passes,
        workers,
        listeners,
        clocks,
        ended,
        ends,
    })
}

/// The place of a pass that has no less weight than any other.
fn heaviest<F: Store>(passes: &Vec<Pass<F>>) -> usize
    requires { 1 ≤ length passes.now.items }
    ensures { IsHeaviest passes.now.items result }
{
    let mut place = 0;
    let mut most = passes[0].weight();
    'places: for at in 1..passes.len() {
        let weight = passes[at].weight();
        if most < weight {
            place = at;
            most = weight;
        }
    }
    place
}

/// Splits the next pass off the heaviest one, so that a weight of 2^62 is enough for as many passes as there are
/// connections at a time.
fn split_heaviest<R: Wait, F: Store>(
    rt: &R,
    host: &mut Host<F>,
    passes: &mut Vec<Pass<F>>,
    room: SplitRoom<F>,
) -> Pass<F>
    requires some { (1 ≤ length passes.old.items) × (length passes.old.items ≤ 1024) }
    requires ready { AreReady host.old 0 passes.old.items }
    requires weights { total weight_of passes.old.items ≡ 2 ^ 62 }
    requires made { host.old.made ≡ length passes.old.items }
    ensures ready { AreReady host.old 0 passes.new.items }
    ensures many { length passes.new.items ≡ length passes.old.items }
    ensures given { IsFreshPass host.old host.old.made result }
    ensures weights { total weight_of passes.new.items + result.weight ≡ 2 ^ 62 }
    ensures room { vec_capacity passes.new ≡ vec_capacity passes.old }
    ensures host { host.new ≡ record host.old { made = host.old.made + 1 } }
{
    let place = heaviest(passes);
    host.split_into(rt, &mut passes[place], room)
}

/// The passes of a host, in the order of their numbers: its first one, and one more for each room.
pub(crate) fn split_all<R: Wait, F: Store>(
    rt: &R,
    host: &mut Host<F>,
    first: Pass<F>,
    mut rooms: Vec<SplitRoom<F>>,
    mut passes: Vec<Pass<F>>,
) -> Vec<Pass<F>>
    requires few { length rooms.items ≤ 1024 }
    requires first { IsFreshPass host.old 0 first × (first.weight ≡ 2 ^ 62) }
    requires made { host.old.made ≡ 1 }
    requires room { (passes.items ≡ []) × (length rooms.items + 1 ≤ vec_capacity passes) }
    ensures split { AreSplit host.old (length rooms.items + 1) host.new.made result.items }
    ensures host { host.new ≡ record host.old { made = host.new.made } }
{
    passes.push_reserved(first);
    'splits: while !rooms.is_empty() {
        let room = rooms.remove(0);
        let given = split_heaviest(rt, host, &mut passes, room);
        passes.push_reserved(given);
    }
    passes
}

/// The passes of a host's workers, one for each room, and that of its watch, which has the last number.
fn split_off<R: Wait, F: Store>(
    rt: &R,
    host: &mut Host<F>,
    first: Pass<F>,
    rooms: Vec<SplitRoom<F>>,
    passes: Vec<Pass<F>>,
) -> (Vec<Pass<F>>, Pass<F>)
    requires few { length rooms.items ≤ 1024 }
    requires first { IsFreshPass host.old 0 first × (first.weight ≡ 2 ^ 62) }
    requires made { host.old.made ≡ 1 }
    requires room { (passes.items ≡ []) × (length rooms.items + 1 ≤ vec_capacity passes) }
    ensures split { AreSplit host.old (length rooms.items + 1) host.new.made (result.0.items ++ result.1 ∷ []) }
    ensures host { host.new ≡ record host.old { made = host.new.made } }
{
    let mut passes = split_all(rt, host, first, rooms, passes);
    let Some(eye) = passes.pop() else {
        unreachable!()
    };
    (passes, eye)
}

/// A worker for each listener, with its clock and its pass.
pub(crate) fn seat<N: Drop, C: Drop, F: Store>(
    mut listeners: Vec<N>,
    mut clocks: Vec<C>,
    mut passes: Vec<Pass<F>>,
    mut workers: Vec<Worker<N, C, F>>,
) -> Vec<Worker<N, C, F>>
    requires clocks { length clocks.items ≡ length listeners.items }
    requires passes { length passes.items ≡ length listeners.items }
    requires room { (workers.items ≡ []) × (length listeners.items ≤ vec_capacity workers) }
    ensures listeners { map (λ worker. worker.listener) result.items ≡ listeners.items }
    ensures clocks { map (λ worker. worker.clock) result.items ≡ clocks.items }
    ensures passes { map (λ worker. worker.pass) result.items ≡ passes.items }
{
    'seats: while !listeners.is_empty() && !clocks.is_empty() && !passes.is_empty() {
        let listener = listeners.remove(0);
        let clock = clocks.remove(0);
        let pass = passes.remove(0);
        workers.push_reserved(Worker {
            listener,
            clock,
            pass,
            end: WorkEnd::Closed,
        });
    }
    workers
}

/// The listeners, the clocks and the passes of the workers with that of the watch behind them, and how each worker ended.
pub(crate) fn unseat<N: Drop, C: Drop, F: Store>(
    mut workers: Vec<Worker<N, C, F>>,
    eye: Pass<F>,
    listeners: &mut Vec<N>,
    clocks: &mut Vec<C>,
    passes: &mut Vec<Pass<F>>,
    ends: &mut Vec<WorkEnd>,
)
    requires listeners { (listeners.old.items ≡ []) × (length workers.items ≤ vec_capacity listeners.old) }
    requires clocks { (clocks.old.items ≡ []) × (length workers.items ≤ vec_capacity clocks.old) }
    requires passes { (passes.old.items ≡ []) × (length workers.items + 1 ≤ vec_capacity passes.old) }
    requires ends { (ends.old.items ≡ []) × (length workers.items ≤ vec_capacity ends.old) }
    ensures listeners { listeners.new.items ≡ map (λ worker. worker.listener) workers.items }
    ensures clocks { clocks.new.items ≡ map (λ worker. worker.clock) workers.items }
    ensures passes { passes.new.items ≡ map (λ worker. worker.pass) workers.items ++ eye ∷ [] }
    ensures ends { ends.new.items ≡ map (λ worker. worker.end) workers.items }
{
    'seats: while !workers.is_empty() {
        let worker = workers.remove(0);
        listeners.push_reserved(worker.listener);
        clocks.push_reserved(worker.clock);
        passes.push_reserved(worker.pass);
        ends.push_reserved(worker.end);
    }
    passes.push_reserved(eye);
}

/// Each worker works in a thread of its own.
fn work_each<R: Threads + Wait + Sync, F: Store + Send, N: Listener + Send, K: Clock + Send>(
    rt: &R,
    alloc: Global,
    host: &Host<F>,
    desk: &Desk,
    workers: &mut [Worker<N, K, F>],
)
    requires { AllByRecursion (MayWork ⟦<Worker<N, K, F> as WorkMeant<N, N::Link, K>>⟧.meanings host.now) workers.old }
    ensures len { length workers.new ≡ length workers.old }
    ensures each { (i : ℕ) (d : _) → i < length workers.old
        → Works ⟦<Worker<N, K, F> as WorkMeant<N, N::Link, K>>⟧.meanings desk.now (slice_index_or workers.old i d) (slice_index_or workers.new i d) }
{
    let threads = workers.len().max(1);
    thread::for_each_mut(
        rt,
        workers,
        threads,
        &|_: usize, worker: &mut Worker<N, K, F>|
            requires { MayWork (record {
              links_left = N.links_left;
              finished_links = N.finished_links;
              accepted = N.accepted;
              finished = N.finished;
              faults = N.faults;
              left = N.Link.left;
              held = N.Link.held;
              read_faults = N.Link.read_faults;
              write_faults = N.Link.write_faults;
              moments = K.moments;
              loses = F.loses;
            }) host.now worker.now }
            ensures { Works (record {
              links_left = N.links_left;
              finished_links = N.finished_links;
              accepted = N.accepted;
              finished = N.finished;
              faults = N.faults;
              left = N.Link.left;
              held = N.Link.held;
              read_faults = N.Link.read_faults;
              write_faults = N.Link.write_faults;
              moments = K.moments;
              loses = F.loses;
            }) desk.entry.now worker.entry.now worker.exit.now }
        { work(rt, alloc, host, desk, worker) },
    );
}

/// The workers after their work, in the same order. Then the work is over, and the bell is rung.
fn work_and_ring<R: Threads + Wait + Sync, F: Store + Send, N: Listener + Send, C: Clock + Send>(
    rt: &R,
    alloc: Global,
    host: &Host<F>,
    desk: &Desk,
    over: &AtomicBool,
    bell: &Parker,
    mut workers: Vec<Worker<N, C, F>>,
) -> Vec<Worker<N, C, F>>
    requires { AllByRecursion (MayWork ⟦<Worker<N, C, F> as WorkMeant<N, N::Link, C>>⟧.meanings host.now) workers.items }
    ensures { AllZip (Works ⟦<Worker<N, C, F> as WorkMeant<N, N::Link, C>>⟧.meanings desk.now) workers.items result.items }
{
    work_each(rt, alloc, host, desk, workers.as_mut_slice());
    over.store(true, Ordering::SeqCst);
    bell.unpark();
    workers
}

/// The same while a watch looks at the host, in a thread of its own. Where none can be made for it, it looks once behind the
/// work.
fn work_beside<
    R: Threads + Wait + Sync,
    F: Store + Send,
    N: Listener + Send,
    C: Clock + Send,
    K: Sink + Send,
>(
    rt: &R,
    alloc: Global,
    host: &Host<F>,
    desk: &Desk,
    over: &AtomicBool,
    bell: &Parker,
    pass: &mut Pass<F>,
    notes: &mut K,
    marks: &mut Marks,
    mut workers: Vec<Worker<N, C, F>>,
) -> Vec<Worker<N, C, F>>
    requires may { AllByRecursion (MayWork ⟦<Worker<N, C, F> as WorkMeant<N, N::Link, C>>⟧.meanings host.now) workers.items }
    requires host { locks_of pass.old ≡ host.now.locks }
    requires right { AreRight marks.old (sight_of pass.old) }
    ensures works { AllZip (Works ⟦<Worker<N, C, F> as WorkMeant<N, N::Link, C>>⟧.meanings desk.now) workers.items result.items }
    ensures told { TellsOf K.held K.write_faults notes.old notes.new marks.old marks.new }
    ensures right { AreRight marks.new (sight_of pass.new) }
    ensures own { own_of pass.new ≡ own_of pass.old }
    ensures same { IsSamePass pass.old pass.new }
{
    let mut watching = ||
        requires { (locks_of pass.now ≡ host.now.locks) × AreRight marks.now (sight_of pass.now) }
        ensures { TellsOf K.held K.write_faults notes.entry.now notes.exit.now marks.entry.now marks.exit.now
            × AreRight marks.exit.now (sight_of pass.exit.now) × (own_of pass.exit.now ≡ own_of pass.entry.now) × IsSamePass pass.entry.now pass.exit.now }
    { watch(rt, host, over, bell, pass, notes, marks) };
    let mut working = move || -> Vec<Worker<N, C, F>>
        requires { AllByRecursion (MayWork (record {
          links_left = N.links_left;
          finished_links = N.finished_links;
          accepted = N.accepted;
          finished = N.finished;
          faults = N.faults;
          left = N.Link.left;
          held = N.Link.held;
          read_faults = N.Link.read_faults;
          write_faults = N.Link.write_faults;
          moments = C.moments;
          loses = F.loses;
        }) host.now) workers.items }
        ensures { AllZip (Works (record {
          links_left = N.links_left;
          finished_links = N.finished_links;
          accepted = N.accepted;
          finished = N.finished;
          faults = N.faults;
          left = N.Link.left;
          held = N.Link.held;
          read_faults = N.Link.read_faults;
          write_faults = N.Link.write_faults;
          moments = C.moments;
          loses = F.loses;
        }) desk.entry.now) workers.entry.items result.items }
    {
        let idle = mem::replace(&mut workers, Vec::new(alloc));
        work_and_ring(rt, alloc, host, desk, over, bell, idle)
    };
    let (_watched, worked) = join_mut(rt, &mut watching, &mut working);
    worked
}

/// The workers after their work, in the same order, and what a watch did meanwhile.
fn work_all<
    R: Threads + Wait + Sync,
    F: Store + Send,
    N: Listener + Send,
    C: Clock + Send,
    K: Sink + Send,
>(
    rt: &R,
    alloc: Global,
    host: &Host<F>,
    desk: &Desk,
    pass: &mut Pass<F>,
    notes: &mut K,
    marks: &mut Marks,
    workers: Vec<Worker<N, C, F>>,
) -> Vec<Worker<N, C, F>>
    requires may { AllByRecursion (MayWork ⟦<Worker<N, C, F> as WorkMeant<N, N::Link, C>>⟧.meanings host.now) workers.items }
    requires host { locks_of pass.old ≡ host.now.locks }
    requires right { AreRight marks.old (sight_of pass.old) }
    ensures works { AllZip (Works ⟦<Worker<N, C, F> as WorkMeant<N, N::Link, C>>⟧.meanings desk.now) workers.items result.items }
    ensures told { TellsOf K.held K.write_faults notes.old notes.new marks.old marks.new }
    ensures right { AreRight marks.new (sight_of pass.new) }
    ensures own { own_of pass.new ≡ own_of pass.old }
    ensures same { IsSamePass pass.old pass.new }
{
    let over = AtomicBool::new(false);
    let bell = Parker::new();
    work_beside(
        rt, alloc, host, desk, &over, &bell, pass, notes, marks, workers,
    )
}

/// What a host's workers left: all its passes, how each worker ended, and of which shards the notes were told.
#[derive(Drop)]
pub(crate) struct Returned<F: Store> {
    pub passes: Vec<Pass<F>>,
    pub ends: Vec<WorkEnd>,
    pub marks: Marks,
}

/// Serves the links of every listener by a worker of its own, in space that was taken before. All passes of the host come
/// back.
pub(crate) fn work_host<
    R: Threads + Wait + Sync,
    F: Store + Send,
    N: Listener + Send,
    C: Clock + Send,
    K: Sink + Send,
>(
    rt: &R,
    alloc: Global,
    desk: &Desk,
    host: &mut Host<F>,
    first: Pass<F>,
    crew: Crew<F, N, C>,
    listeners: &mut Vec<N>,
    clocks: &mut Vec<C>,
    notes: &mut K,
) -> Returned<F>
    requires few { length listeners.old.items ≤ 1024 }
    requires clocks { length clocks.old.items ≡ length listeners.old.items }
    requires has_all_back { AllByRecursion (λ listener. N.finished listener ≡ N.accepted listener) listeners.old.items }
    requires first { IsFreshPass host.old 0 first × (first.weight ≡ 2 ^ 62) }
    requires made { host.old.made ≡ 1 }
    requires crew { crew.count ≡ length listeners.old.items }
    ensures host { host.new ≡ record host.old { made = host.new.made } }
    ensures returned { AreReturned ⟦<Worker<N, C, F> as WorkMeant<N, N::Link, C>>⟧.meanings desk.now host.old host.new.made result.marks result.passes.items result.ends.items
        listeners.old.items listeners.new.items clocks.old.items clocks.new.items }
    ensures told { TellsOf K.held K.write_faults notes.old notes.new none_raised result.marks }
{
    let Crew {
        splits,
        passes,
        workers,
        listeners: heard,
        clocks: timed,
        mut ended,
        mut ends,
        ..
    } = crew;
    let (passes, mut eye) = split_off(rt, host, first, splits, passes);
    let mut marks = lowered();
    let heard = mem::replace(listeners, heard);
    let timed = mem::replace(clocks, timed);
    let workers = seat(heard, timed, passes, workers);
    let workers = work_all(rt, alloc, host, desk, &mut eye, notes, &mut marks, workers);
    unseat(workers, eye, listeners, clocks, &mut ended, &mut ends);
    Returned {
        passes: ended,
        ends,
        marks,
    }
}
