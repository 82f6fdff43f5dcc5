//! Producers and one consumer at a stage queue.

ghost use Rattle.std.specs.Prelude.{◌≡◌, true, All, IfOk};
ghost use Rattle.stage_link.specs.Queues.{known, IsQueuePass};
ghost use Rattle.stage_workers.specs.declared.look.Post.{Post};
ghost use Rattle.turn_cases.specs.Crews.{IsHandOf};
ghost use Rattle.turn_cases.specs.declared.passing.Hand.{Hand};

use crate::running::run;
use crossbeam_utils::Backoff;
use stage_link::{Full, QueuePass, StageQueue, stage_queue};
use stage_workers::{Crew, Gate, Look, MOST_TRIES, Patience, Post};
use std::alloc::{AllocError, Global};
use std::sync::Wait;
use std::thread::Threads;

/// How many items the queue has room for.
const ROOM: usize = 8;

/// What is put and taken.
#[derive(Clone, Copy, Debug, Drop)]
pub(crate) struct Item {
    /// The producer, from 1.
    pub(crate) producer: u8,
    /// Which of its items it is, from 0.
    pub(crate) number: u32,
}

/// The queue, which all share.
#[derive(Drop)]
pub(crate) struct Line {
    queue: StageQueue<Item>,
}

/// What a producer owns.
#[derive(Drop)]
pub(crate) struct Putting {
    producer: u8,
    pass: QueuePass<Item>,
    put: u32,
    /// How many items it is to put.
    items: u32,
}

/// What the consumer owns.
#[derive(Drop)]
pub(crate) struct Taking {
    pass: QueuePass<Item>,
    took: Vec<Item>,
}

/// What a worker owns.
#[derive(Drop)]
pub(crate) enum Hand {
    Producer(Putting),
    Consumer(Taking),
}

impl Line {
    /// Puts an item, as long as one is left. Where there is no room it rests for a moment, and looks again.
    fn put<R: Wait>(&self, rt: &R, hand: &mut Putting) -> Look
        requires pass { IsQueuePass self.now.queue hand.old.pass }
        requires puts { (known hand.old.pass).puts ≡ true }
        ensures pass { IsQueuePass self.now.queue hand.new.pass }
        ensures puts { (known hand.new.pass).puts ≡ true }
    {
        if hand.put >= hand.items {
            return Look::Idle;
        }
        let item = Item {
            producer: hand.producer,
            number: hand.put,
        };
        match self.queue.put(rt, &mut hand.pass, item) {
            Ok(()) => hand.put += 1,
            Err(Full { item: _ }) => Backoff::new().snooze(),
        }
        Look::Moved
    }

    /// Takes an item, and waits for one for a while.
    fn take<R: Wait>(&self, rt: &R, hand: &mut Taking) -> Look
        requires pass { IsQueuePass self.now.queue hand.old.pass }
        requires takes { (known hand.old.pass).takes ≡ true }
        ensures pass { IsQueuePass self.now.queue hand.new.pass }
        ensures takes { (known hand.new.pass).takes ≡ true }
    {
        let mut patience = Patience::new();
        for _ in 0..MOST_TRIES {
            if let Some(item) = self.queue.take(rt, &mut hand.pass) {
                return match hand.took.push(item) {
                    Ok(()) => Look::Moved,
                    Err(_) => Look::NoMemory,
                };
            }
            patience.again();
        }
        Look::Idle
    }
}

impl Crew for Line {
    ghost use Rattle.turn_cases.specs.Crews.{IsHandOf};

    type Hand = Hand;

    type Worker = u8;

    ghost fits = { IsHandOf };

    ghost follows = { λ c g h. Unit {0} };

    ghost looked = { λ c g said h. Unit {0} };

    fn look<R: Wait, G: Gate<u8>>(&self, rt: &R, hand: &mut Hand, gate: &G) -> Look {
        match hand {
            Hand::Producer(putting) => {
                gate.pass(putting.producer);
                self.put(rt, putting)
            }
            Hand::Consumer(taking) => {
                gate.pass(0);
                self.take(rt, taking)
            }
        }
    }

    ghost reflexive = { λ c h. tt };

    ghost transitive = { λ c f g h p q. tt };
}

/// So many producers put so many items each. Gives all items as the consumer took them.
pub(crate) fn pass_all<R: Threads + Wait + Sync>(
    rt: &R,
    alloc: Global,
    producers: u8,
    items: u32,
) -> Result<Vec<Item>, AllocError> {
    let (queue, own) = stage_queue(alloc, ROOM)?;
    let mut posts = posts_of(alloc, &queue, own, producers, items)?;
    let crew = Line { queue };
    run(rt, &crew, &mut posts);
    finish(rt, crew, posts)
}

/// A post for each producer, and the consumer's behind them.
fn posts_of(
    alloc: Global,
    queue: &StageQueue<Item>,
    mut own: QueuePass<Item>,
    producers: u8,
    items: u32,
) -> Result<Vec<Post<Hand>>, AllocError>
    requires pass { IsQueuePass queue.now own }
    requires takes { (known own).takes ≡ true }
    ensures { IfOk result (λ posts. All (λ (p : Post Hand). IsHandOf (record { queue = queue.now }) p.hand) posts.items) }
{
    let mut posts = Vec::with_capacity(alloc, producers as usize + 1)?;
    for producer in 0..producers {
        let pass = queue.split_pass(&mut own)?;
        posts.push(post(Hand::Producer(Putting {
            producer: producer + 1,
            pass,
            put: 0,
            items,
        })))?;
    }
    let took = Vec::new(alloc);
    posts.push(post(Hand::Consumer(Taking { pass: own, took })))?;
    Ok(posts)
}

/// The post of a worker that has not looked.
fn post(hand: Hand) -> Post<Hand>
    ensures { result.hand ≡ hand }
{
    Post {
        hand,
        said: Look::Idle,
    }
}

/// Takes the consumer's hand, which stands last, and lets it finish.
fn finish<R: Wait>(rt: &R, crew: Line, mut posts: Vec<Post<Hand>>) -> Result<Vec<Item>, AllocError>
    requires { All (λ (p : Post Hand). IsHandOf crew p.hand) posts.items }
{
    match posts.pop() {
        None => Err(AllocError),
        Some(last) => match last.hand {
            Hand::Consumer(own) => join_all(rt, crew, posts, own),
            Hand::Producer(_other) => Err(AllocError),
        },
    }
}

/// Joins all producers into the consumer, which then takes what is left in the queue, and gives what it took.
fn join_all<R: Wait>(
    rt: &R,
    crew: Line,
    mut posts: Vec<Post<Hand>>,
    own: Taking,
) -> Result<Vec<Item>, AllocError>
    requires pass { IsQueuePass crew.queue own.pass }
    requires takes { (known own.pass).takes ≡ true }
    requires posts { All (λ (p : Post Hand). IsHandOf crew p.hand) posts.items }
{
    let Taking { mut pass, mut took } = own;
    for _ in 0..posts.len() {
        match posts.pop() {
            None => break,
            Some(other) => join(&crew, &mut pass, other.hand),
        }
    }
    for _ in 0..ROOM {
        match crew.queue.take(rt, &mut pass) {
            None => break,
            Some(item) => took.push(item)?,
        }
    }
    Ok(took)
}

/// Joins a producer into the consumer.
fn join(crew: &Line, pass: &mut QueuePass<Item>, hand: Hand)
    requires pass { IsQueuePass crew.now.queue pass.old }
    requires takes { (known pass.old).takes ≡ true }
    requires hand { IsHandOf crew.now hand }
    ensures pass { IsQueuePass crew.now.queue pass.new }
    ensures takes { (known pass.new).takes ≡ true }
{
    match hand {
        Hand::Producer(putting) => crew.queue.join_pass(pass, putting.pass),
        Hand::Consumer(_other) => {}
    }
}

/// A consumer looks so often at a queue in which there is nothing. Gives how many items it took.
pub(crate) fn look_at_nothing<R: Wait>(
    rt: &R,
    alloc: Global,
    looks: u32,
) -> Result<usize, AllocError> {
    let (queue, pass) = stage_queue(alloc, ROOM)?;
    let line = Line { queue };
    let mut hand = Taking {
        pass,
        took: Vec::new(alloc),
    };
    for _ in 0..looks {
        let _said = line.take(rt, &mut hand);
    }
    Ok(hand.took.len())
}

/// Whether so many items of this producer are there, each once and in its order.
pub(crate) fn are_all(items: &[Item], producer: u8, count: u32) -> bool {
    let mut next = 0;
    for item in items {
        if item.producer == producer {
            if next >= count || item.number != next {
                return false;
            }
            next += 1;
        }
    }
    next == count
}
