//! A job of many parts, of which workers draw one after another until none is left.
ghost use Rattle.std.specs.Prelude.{◌≡◌, ◌<◌, ℕ, None, length, IfOk, IfSome};
ghost use Rattle.std.specs.List.{All};
ghost use Rattle.thread_jobs.specs.Parts.{AreParts, ArePlaced, IsDrawn};

use crate::{Job, run_on_threads};
use std::alloc::{AllocError, Allocator};
use std::sync::atomic::{AtomicUsize, Ordering};
use std::thread::Threads;

/// For how many parts a worker's list has room from the start. With up to 512 parts, which worker draws which of them
/// changes no request for memory.
const ROOM: usize = 512;

/// A job of many parts, which are known by their numbers.
pub trait PartJob {
    /// What is made of a part.
    type Part: Drop;

    /// The parts that may be done, by number.
    ghost may_do: { Self → ℕ → Type 0 };

    /// What may be made of the part with a number.
    ghost is_part: { Self → ℕ → Self.Part → Type 0 };

    /// Does the part with a number.
    fn do_part(&self, at: usize) -> Self::Part
        requires { may_do self.now at }
        ensures { is_part self.now at result };
}

/// This many workers do all parts side by side, each on a thread of its own if one can be made. Each worker draws one
/// part after another, so that all are busy to the end. What is made of the parts is given in their order.
///
/// # Errors
///
/// There is not enough memory for the lists of parts.
pub fn do_parts<R, J, A>(
    rt: &R,
    alloc: A,
    job: &J,
    parts: usize,
    workers: usize,
) -> Result<Vec<J::Part, A>, AllocError>
where
    R: Threads + Sync,
    J: PartJob + Sync,
    J::Part: Send,
    A: Allocator + Copy + Send + Sync,
    requires { (n : ℕ) → n < parts → J.may_do job.now n }
    ensures count { IfOk result (λ made. length made.items ≡ parts) }
    ensures each { IfOk result (λ made. AreParts (J.is_part job.now) made.items) }
{
    let next = AtomicUsize::new(0);
    let drawing = Drawing {
        job,
        parts,
        next: &next,
        alloc,
    };
    let lists = drawing.new_lists(workers)?;
    let outputs = run_on_threads(rt, &drawing, lists)?;
    let places = drawing.in_places(outputs)?;
    drawing.all_parts(places)
}

/// What was made of the part with a number.
#[derive(Drop)]
struct Drawn<P> {
    at: usize,
    part: P,
}

/// Parts of a job, of which each worker draws one after another.
#[derive(Drop)]
struct Drawing<'a, J: PartJob, A: Allocator + Copy> {
    job: &'a J,
    parts: usize,
    next: &'a AtomicUsize,
    alloc: A,
}

impl<'a, J: PartJob, A: Allocator + Copy> Job for Drawing<'a, J, A> {
    type Worker = Vec<Drawn<J::Part>, A>;

    type Output = Result<Vec<Drawn<J::Part>, A>, AllocError>;

    ghost use Rattle.std.specs.Prelude.{◌<◌, ℕ, IfOk};
    ghost use Rattle.std.specs.List.{All};
    ghost use Rattle.thread_jobs.specs.Parts.{IsDrawn};

    ghost is_ready = { λ j list. ((n : ℕ) → n < j.parts → J.may_do j.job.now n)
        × All (IsDrawn (J.is_part j.job.now) j.parts) list.items };

    ghost is_output = { λ j began output.
        IfOk output (λ list. All (IsDrawn (J.is_part j.job.now) j.parts) list.items) };

    fn work(&self, list: Vec<Drawn<J::Part>, A>) -> Result<Vec<Drawn<J::Part>, A>, AllocError> {
        self.draw_parts(list)
    }
}

impl<J: PartJob, A: Allocator + Copy> Drawing<'_, J, A> {
    /// An empty list for each worker.
    fn new_lists(&self, workers: usize) -> Result<Vec<Vec<Drawn<J::Part>, A>, A>, AllocError>
        ensures { IfOk result (λ lists.
            All (λ list. All (IsDrawn (J.is_part self.now.job.now) self.now.parts) list.items) lists.items) }
    {
        let mut lists = Vec::with_capacity(self.alloc, workers)?;
        for _ in 0..workers {
            let list = Vec::with_capacity(self.alloc, self.parts.min(ROOM))?;
            lists.push(list)?;
        }
        Ok(lists)
    }

    /// Draws one part after another, does it and puts it into the list, until none is left.
    fn draw_parts(
        &self,
        mut list: Vec<Drawn<J::Part>, A>,
    ) -> Result<Vec<Drawn<J::Part>, A>, AllocError>
        requires may { (n : ℕ) → n < self.now.parts → J.may_do self.now.job.now n }
        requires list { All (IsDrawn (J.is_part self.now.job.now) self.now.parts) list.items }
        ensures { IfOk result (λ all. All (IsDrawn (J.is_part self.now.job.now) self.now.parts) all.items) }
    {
        for _ in 0..self.parts {
            let Some(drawn) = self.draw_part() else {
                break;
            };
            list.push(drawn)?;
        }
        Ok(list)
    }

    /// Draws the next part by its number, and does it. `None` says that none is left.
    fn draw_part(&self) -> Option<Drawn<J::Part>>
        requires { (n : ℕ) → n < self.now.parts → J.may_do self.now.job.now n }
        ensures { IfSome result (IsDrawn (J.is_part self.now.job.now) self.now.parts) }
    {
        let at = self.next.fetch_add(1, Ordering::SeqCst);
        if at >= self.parts {
            return None;
        }
        let part = self.job.do_part(at);
        Some(Drawn { at, part })
    }

    /// A place for each part, with nothing in it.
    fn empty_places(&self) -> Result<Vec<Option<J::Part>, A>, AllocError>
        ensures count { IfOk result (λ places. length places.items ≡ self.now.parts) }
        ensures empty { IfOk result (λ places. All (λ place. place ≡ None) places.items) }
    {
        let mut places = Vec::with_capacity(self.alloc, self.parts)?;
        for _ in 0..self.parts {
            places.push(None)?;
        }
        Ok(places)
    }

    /// What all workers left, each part at its place.
    fn in_places(
        &self,
        mut outputs: Vec<Result<Vec<Drawn<J::Part>, A>, AllocError>, A>,
    ) -> Result<Vec<Option<J::Part>, A>, AllocError>
        requires { All (λ output.
            IfOk output (λ list. All (IsDrawn (J.is_part self.now.job.now) self.now.parts) list.items)) outputs.items }
        ensures count { IfOk result (λ places. length places.items ≡ self.now.parts) }
        ensures placed { IfOk result (λ places. ArePlaced (J.is_part self.now.job.now) places.items) }
    {
        let mut places = self.empty_places()?;
        while let Some(output) = outputs.pop() {
            self.put_parts(&mut places, output?);
        }
        Ok(places)
    }

    /// Puts what one worker left in its places.
    fn put_parts(&self, places: &mut Vec<Option<J::Part>, A>, mut list: Vec<Drawn<J::Part>, A>)
        requires count { length places.old.items ≡ self.now.parts }
        requires placed { ArePlaced (J.is_part self.now.job.now) places.old.items }
        requires list { All (IsDrawn (J.is_part self.now.job.now) self.now.parts) list.items }
        ensures count { length places.new.items ≡ self.now.parts }
        ensures placed { ArePlaced (J.is_part self.now.job.now) places.new.items }
    {
        while let Some(Drawn { at, part }) = list.pop() {
            places[at] = Some(part);
        }
    }

    /// What is made of all parts, in order.
    fn all_parts(&self, mut places: Vec<Option<J::Part>, A>) -> Result<Vec<J::Part, A>, AllocError>
        requires may { (n : ℕ) → n < self.now.parts → J.may_do self.now.job.now n }
        requires count { length places.items ≡ self.now.parts }
        requires placed { ArePlaced (J.is_part self.now.job.now) places.items }
        ensures count { IfOk result (λ made. length made.items ≡ self.now.parts) }
        ensures each { IfOk result (λ made. AreParts (J.is_part self.now.job.now) made.items) }
    {
        let mut made = Vec::with_capacity(self.alloc, self.parts)?;
        for at in 0..self.parts {
            let part = self.part_at(&mut places, at);
            made.push(part)?;
        }
        Ok(made)
    }

    /// What is made of the part with a number. A part that is missing is done now.
    fn part_at(&self, places: &mut Vec<Option<J::Part>, A>, at: usize) -> J::Part
        requires inside { (at < self.now.parts) × (length places.old.items ≡ self.now.parts) }
        requires may { J.may_do self.now.job.now at }
        requires placed { ArePlaced (J.is_part self.now.job.now) places.old.items }
        ensures count { length places.new.items ≡ self.now.parts }
        ensures placed { ArePlaced (J.is_part self.now.job.now) places.new.items }
        ensures part { J.is_part self.now.job.now at result }
    {
        match places[at].take() {
            Some(part) => part,
            None => self.job.do_part(at),
        }
    }
}
