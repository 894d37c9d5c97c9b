ghost use Rattle.board_desk.specs.Answers.{KeepAllAnswers, is_starved, tells_end};
ghost use Rattle.board_desk.specs.Mine.{mine_of};
ghost use Rattle.board_desk.specs.Passes.{HaveAnalysts, IsPassOf, PassView, Stands, desk_of, first_passes as passes_to};
ghost use Rattle.board_desk.specs.Rules.{Merges, longer_of};
ghost use Rattle.std.specs.Prelude.{◌≡◌, ◌≢◌, ◌+◌, ◌-◌, ◌<◌, ◌^◌, ◌||◌, [], All, IfOk, None, Some, false, true};
ghost use Rattle.tile_board.specs.Calls.{WasGood};

use crate::law::{Copied, Enroll, Law, Look, Return, Settle, Sit, View};
use crate::lock::{Hall, Place, WORDS, give_board, take_board};
use crate::pass::{Heard, Pass};
use crate::stamped::Stamped;
use atomic_table::Table;
use certificates::{SeamResult, TileResult};
use raster_model::Session;
use std::alloc::{AllocError, Global};
use std::marker::Model;
use std::snapshot::Snapshot;
use std::sync::Wait;
use surface_snapshots::Snapshot as Surface;
use tile_board::{
    Advance, AdvanceFault, Board, ClaimFault, GatherFault, Gathered, KeepFault, PresentMask,
    PublishFault, Ticket,
};

/// A session's board under a lock. Only one call has the board at a time, and calls are served in the order in which
/// they drew their tickets. No tile is solved while a call has it.
#[derive(Drop)]
pub struct Desk {
    table: Table<Option<Board>, View, Snapshot<Session>, Law, Global>,
}

impl Model for Desk {
    ghost use Rattle.board_desk.specs.Passes.{DeskView, desk_of};
    ghost use Rattle.std.specs.Prelude.{◌≡◌};

    ghost Value = { DeskView };

    ghost view = { λ d. desk_of d.table.shared.table_id d.table.shared.key.value };

    ghost invariant = { λ d. (d.table.shared.table_id.words ≡ 67) × (d.table.shared.table_id.slots ≡ 1) };
}

impl Desk {
    ghost use Rattle.board_desk.specs.Answers.{AdvanceAnswers, AwaitsSurface, ClaimAnswers, GatherAnswers, IsCurrent, IsMaskThere, IsOfSettle, IsUpToDate, KeepAllAnswers, KeepAnswers, MadeAnswers, MaskAnswers, NewestAnswers, OwnAdvance, OwnPublish, PublishAnswers, ShareAnswers, tells_end};
    ghost use Rattle.board_desk.specs.Passes.{Called, HasNotMoved, HaveAnalysts, IsAtSettle, IsPassOf, Merged, Stands, first_passes as passes_to, worker_pass as new_worker};
    ghost use Rattle.std.specs.Prelude.{◌≡◌, ◌≢◌, ◌||◌, [], All, Err, IfOk, None, OnOk, length, vec_len};
    ghost use Rattle.tile_board.specs.declared.answers.PublishFault.TheVariants.{NotSettle};
    ghost use Rattle.tile_board.specs.Boards.{IsBoard};
    ghost use Rattle.surface_snapshots.specs.Views.{parts_of};
    ghost use Rattle.tile_board.specs.Calls.{IsMadeSurface, WasGoodAt, WasMaskAt};
    ghost use Rattle.tile_board.specs.Surfaces.{IsNewestIn};

    /// The desk of a board whose history is empty, and the passes of the analysts, from analyst 1 on. It fails only for
    /// lack of memory.
    pub fn open(alloc: Global, board: Board) -> Result<(Desk, Vec<Pass>), AllocError>
        requires { board.entries ≡ [] }
        ensures session { IfOk result (λ made. made.0.session ≡ board.session) }
        ensures passes { IfOk result (λ made. made.1.items ≡ passes_to made.0 (vec_len board.session.scripts)) }
        ensures own { IfOk result (λ made. All (IsPassOf made.0) made.1.items) }
        ensures analysts { IfOk result (λ made. HaveAnalysts made.1.items) }
    {
        let analysts = board.session().scripts.len() as u32;
        let session = Snapshot::of(&**board.session());
        let mut slots = Vec::with_capacity(alloc, 1)?;
        slots.push(Some(board))?;
        let words = vec![in alloc; 0; WORDS]?;
        let Ok((table, mut giver)) = Table::new(alloc, &words, slots, &session) else {
            return Err(AllocError);
        };
        let passes = first_passes(alloc, &table.shared, &mut giver, analysts)?;
        Ok((Desk { table }, passes))
    }

    /// A worker's pass. It has seen as much as the pass `from`, which stays as it was.
    pub fn worker_pass<R: Wait>(&self, _rt: &R, from: &mut Pass) -> Pass
        requires { IsPassOf self.now from.old }
        ensures same { from.new ≡ from.old }
        ensures worker { result ≡ new_worker from.old }
    {
        let seat = self.table.shared.split_seat::<Copied>(&mut from.seat);
        Pass {
            seat,
            analyst: None,
            heard: Heard {
                front: from.heard.front,
                newest: from.heard.newest,
                done: 0,
            },
            ended: false,
        }
    }

    /// Takes a worker's pass back. The pass `into` has then seen the longer of both histories.
    pub fn give_back<R: Wait>(&self, _rt: &R, into: &mut Pass, worker: Pass)
        requires into { IsPassOf self.now into.old }
        requires worker { IsPassOf self.now worker }
        requires unnamed { worker.analyst ≡ None }
        ensures { Merged into.old worker into.new }
    {
        let Pass { seat, heard, .. } = worker;
        take_in(&self.table.shared, &mut into.seat, seat);
        if into.heard.front < heard.front {
            into.heard.front = heard.front;
            into.heard.newest = heard.newest;
        }
    }

    /// Asks for a tile to solve, as `Board::claim` gives it.
    pub fn claim<R: Wait>(
        &self,
        rt: &R,
        alloc: Global,
        pass: &mut Pass,
    ) -> Stamped<Result<Ticket, ClaimFault>>
        requires { IsPassOf self.now pass.old }
        ensures call { Called self.now.session pass.old pass.new (ClaimAnswers result.answer) }
        ensures own { HasNotMoved pass.old pass.new }
        ensures front { result.front ≡ length pass.new.seen }
    {
        let mut board = take_board(rt, &self.table.shared, &mut pass.seat);
        let answer = board.claim(alloc);
        pass.heard = Heard::of(&board, pass.analyst);
        give_board(&self.table.shared, &mut pass.seat, board);
        Stamped {
            front: pass.heard.front,
            answer,
        }
    }

    /// Asks for several tiles to solve, as `Board::claim_share` gives them.
    pub fn claim_share<R: Wait>(
        &self,
        rt: &R,
        alloc: Global,
        pass: &mut Pass,
        parts: u32,
        most: u32,
    ) -> Stamped<Result<Vec<Ticket>, ClaimFault>>
        requires { IsPassOf self.now pass.old }
        ensures call { Called self.now.session pass.old pass.new (ShareAnswers parts most result.answer) }
        ensures own { HasNotMoved pass.old pass.new }
        ensures front { result.front ≡ length pass.new.seen }
    {
        let mut board = take_board(rt, &self.table.shared, &mut pass.seat);
        let answer = board.claim_share(alloc, parts, most);
        pass.heard = Heard::of(&board, pass.analyst);
        give_board(&self.table.shared, &mut pass.seat, board);
        Stamped {
            front: pass.heard.front,
            answer,
        }
    }

    /// Hands in a tile's result, to be kept as by `Board::keep`.
    pub fn keep<R: Wait>(
        &self,
        rt: &R,
        alloc: Global,
        pass: &mut Pass,
        solved: TileResult,
    ) -> Stamped<Result<(), KeepFault>>
        requires { IsPassOf self.now pass.old }
        ensures call { Called self.now.session pass.old pass.new (KeepAnswers solved result.answer) }
        ensures own { HasNotMoved pass.old pass.new }
        ensures front { result.front ≡ length pass.new.seen }
    {
        let mut board = take_board(rt, &self.table.shared, &mut pass.seat);
        let answer = board.keep(alloc, solved);
        pass.heard = Heard::of(&board, pass.analyst);
        give_board(&self.table.shared, &mut pass.seat, board);
        Stamped {
            front: pass.heard.front,
            answer,
        }
    }

    /// Hands in a tile's result that was good at the end of what the pass has seen, to be kept as by
    /// `Board::keep_solved`. It is not checked again.
    pub fn keep_solved<R: Wait>(
        &self,
        rt: &R,
        alloc: Global,
        pass: &mut Pass,
        solved: TileResult,
    ) -> Stamped<Result<(), KeepFault>>
        requires pass { IsPassOf self.now pass.old }
        requires good { WasGoodAt self.now.session pass.old.seen solved }
        ensures call { Called self.now.session pass.old pass.new (KeepAnswers solved result.answer) }
        ensures own { HasNotMoved pass.old pass.new }
        ensures front { result.front ≡ length pass.new.seen }
    {
        let mut board = take_board(rt, &self.table.shared, &mut pass.seat);
        let answer = board.keep_solved(alloc, solved);
        pass.heard = Heard::of(&board, pass.analyst);
        give_board(&self.table.shared, &mut pass.seat, board);
        Stamped {
            front: pass.heard.front,
            answer,
        }
    }

    /// Hands in several results that were good at the end of what the pass has seen, to be kept one after another as by
    /// `Board::keep_solved`, while nobody else has the board. A result that is refused does not stop the others. It fails
    /// exactly if memory was lacking for one of them.
    pub fn keep_all<R: Wait>(
        &self,
        rt: &R,
        alloc: Global,
        pass: &mut Pass,
        solved: Vec<TileResult>,
    ) -> Stamped<Result<(), AllocError>>
        requires pass { IsPassOf self.now pass.old }
        requires good { All (WasGoodAt self.now.session pass.old.seen) solved.items }
        ensures call { Called self.now.session pass.old pass.new (KeepAllAnswers solved.items result.answer) }
        ensures own { HasNotMoved pass.old pass.new }
        ensures front { result.front ≡ length pass.new.seen }
    {
        let mut board = take_board(rt, &self.table.shared, &mut pass.seat);
        let answer = keep_each(alloc, &mut board, solved);
        pass.heard = Heard::of(&board, pass.analyst);
        give_board(&self.table.shared, &mut pass.seat, board);
        Stamped {
            front: pass.heard.front,
            answer,
        }
    }

    /// Asks for the present revision's mask and results, as `Board::gather` gives them.
    pub fn gather<R: Wait>(
        &self,
        rt: &R,
        alloc: Global,
        pass: &mut Pass,
    ) -> Stamped<Result<Gathered, GatherFault>>
        requires { IsPassOf self.now pass.old }
        ensures call { Called self.now.session pass.old pass.new (GatherAnswers result.answer) }
        ensures own { HasNotMoved pass.old pass.new }
        ensures front { result.front ≡ length pass.new.seen }
    {
        let board = take_board(rt, &self.table.shared, &mut pass.seat);
        let answer = board.gather(alloc);
        pass.heard = Heard::of(&board, pass.analyst);
        give_board(&self.table.shared, &mut pass.seat, board);
        Stamped {
            front: pass.heard.front,
            answer,
        }
    }

    /// Asks for a copy of the present revision's mask, as `Board::present_mask` gives it.
    pub fn present_mask<R: Wait>(
        &self,
        rt: &R,
        alloc: Global,
        pass: &mut Pass,
    ) -> Stamped<Result<PresentMask, AllocError>>
        requires { IsPassOf self.now pass.old }
        ensures call { Called self.now.session pass.old pass.new (MaskAnswers result.answer) }
        ensures there { IfOk result.answer (IsMaskThere self.now.session pass.new.seen) }
        ensures own { HasNotMoved pass.old pass.new }
        ensures front { result.front ≡ length pass.new.seen }
    {
        let board = take_board(rt, &self.table.shared, &mut pass.seat);
        let answer = board.present_mask(alloc);
        pass.heard = Heard::of(&board, pass.analyst);
        give_board(&self.table.shared, &mut pass.seat, board);
        Stamped {
            front: pass.heard.front,
            answer,
        }
    }

    /// Asks for the last published surface, as `Board::newest_surface` gives it: None exactly if nothing is published. Its
    /// revision may be older than the present one.
    pub fn newest<R: Wait>(
        &self,
        rt: &R,
        pass: &mut Pass,
    ) -> Stamped<Result<Option<Surface>, AllocError>>
        requires { IsPassOf self.now pass.old }
        ensures call { Called self.now.session pass.old pass.new (NewestAnswers result.answer) }
        ensures newest { IfOk result.answer (IsNewestIn self.now.session pass.new.seen) }
        ensures own { HasNotMoved pass.old pass.new }
        ensures front { result.front ≡ length pass.new.seen }
    {
        let board = take_board(rt, &self.table.shared, &mut pass.seat);
        let answer = board.newest_surface();
        pass.heard = Heard::of(&board, pass.analyst);
        give_board(&self.table.shared, &mut pass.seat, board);
        Stamped {
            front: pass.heard.front,
            answer,
        }
    }

    /// Publishes a surface for the pass's analyst, as `Board::publish` does.
    pub fn publish<R: Wait>(
        &self,
        rt: &R,
        alloc: Global,
        pass: &mut Pass,
        seams: SeamResult,
    ) -> Stamped<Result<(), PublishFault>>
        requires pass { IsPassOf self.now pass.old }
        requires analyst { pass.old.analyst ≢ None }
        ensures call { Called self.now.session pass.old pass.new (PublishAnswers pass.old.analyst seams result.answer) }
        ensures own { OwnPublish pass.old pass.new seams.revision result.answer }
        ensures fresh { OnOk result.answer (IsCurrent pass.old pass.new seams.revision) }
        ensures settles { IsAtSettle self.now.session pass.old → result.answer ≢ Err NotSettle }
        ensures ended { pass.new.ended ≡ pass.old.ended }
        ensures front { result.front ≡ length pass.new.seen }
    {
        let analyst = number(pass);
        let mut board = take_board(rt, &self.table.shared, &mut pass.seat);
        let answer = board.publish(alloc, analyst, seams);
        pass.heard = Heard::of(&board, pass.analyst);
        give_board(&self.table.shared, &mut pass.seat, board);
        Stamped {
            front: pass.heard.front,
            answer,
        }
    }

    /// Publishes a surface for the pass's analyst, as `Board::publish_made` does: one that was made of the desk's session,
    /// over the mask at the end of what the pass has seen. It was made before, so the lock is held for a moment only.
    pub fn publish_made<R: Wait>(
        &self,
        rt: &R,
        pass: &mut Pass,
        surface: Surface,
    ) -> Stamped<Result<(), PublishFault>>
        requires pass { IsPassOf self.now pass.old }
        requires analyst { pass.old.analyst ≢ None }
        requires made { IsMadeSurface self.now.session (parts_of surface) }
        requires mask { WasMaskAt self.now.session pass.old.seen (parts_of surface).mask (parts_of surface).seams.revision }
        ensures call { Called self.now.session pass.old pass.new (MadeAnswers pass.old.analyst (parts_of surface) result.answer) }
        ensures own { OwnPublish pass.old pass.new (parts_of surface).seams.revision result.answer }
        ensures fresh { OnOk result.answer (IsCurrent pass.old pass.new (parts_of surface).seams.revision) }
        ensures settles { IsAtSettle self.now.session pass.old → result.answer ≢ Err NotSettle }
        ensures ended { pass.new.ended ≡ pass.old.ended }
        ensures front { result.front ≡ length pass.new.seen }
    {
        let analyst = number(pass);
        let mut board = take_board(rt, &self.table.shared, &mut pass.seat);
        let answer = board.publish_made(analyst, surface);
        pass.heard = Heard::of(&board, pass.analyst);
        give_board(&self.table.shared, &mut pass.seat, board);
        Stamped {
            front: pass.heard.front,
            answer,
        }
    }

    /// Does the next command of the pass's analyst, as `Board::advance` does.
    pub fn advance<R: Wait>(
        &self,
        rt: &R,
        alloc: Global,
        pass: &mut Pass,
    ) -> Stamped<Result<Advance, AdvanceFault>>
        requires pass { IsPassOf self.now pass.old }
        requires analyst { pass.old.analyst ≢ None }
        ensures call { Called self.now.session pass.old pass.new (AdvanceAnswers pass.old.analyst result.answer) }
        ensures own { OwnAdvance pass.old pass.new result.answer }
        ensures ended { pass.new.ended ≡ pass.old.ended || tells_end result.answer }
        ensures fresh { IsUpToDate pass.old pass.new result.answer }
        ensures waits { AwaitsSurface self.now.session pass.new result.answer }
        ensures settles { IsAtSettle self.now.session pass.old → IsOfSettle result.answer }
        ensures front { result.front ≡ length pass.new.seen }
    {
        let analyst = number(pass);
        let mut board = take_board(rt, &self.table.shared, &mut pass.seat);
        let answer = board.advance(alloc, analyst);
        pass.heard = Heard::of(&board, pass.analyst);
        give_board(&self.table.shared, &mut pass.seat, board);
        pass.ended = has_ended(pass.ended, &answer);
        Stamped {
            front: pass.heard.front,
            answer,
        }
    }

    /// Closes the desk and gives the board out. The passes are used up.
    pub fn close<R: Wait>(self, rt: &R, mut passes: Vec<Pass>) -> Board
        requires { All (IsPassOf self) passes.items }
        ensures board { IsBoard result }
        ensures session { result.session ≡ self.session }
        ensures stands { All (Stands result.entries) passes.items }
    {
        let Desk { table } = self;
        let (_, mut seat) = table.shared.load_new_seat::<Sit>(0);
        let home = take_board(rt, &table.shared, &mut seat);
        while let Some(pass) = passes.pop() {
            meet(&table.shared, &mut seat, pass);
        }
        home
    }
}

/// The number of a pass's analyst.
fn number(pass: &Pass) -> u32
    requires { pass.now.analyst ≢ None }
    ensures { Some result ≡ pass.now.analyst }
{
    match pass.analyst {
        Some(analyst) => analyst,
        None => unreachable!(),
    }
}

/// Hands results in to a board, one after another. It fails exactly if memory was lacking for one of them.
fn keep_each(alloc: Global, board: &mut Board, solved: Vec<TileResult>) -> Result<(), AllocError>
    requires { All (WasGood board.old) solved.items }
    ensures { KeepAllAnswers solved.items result board.old board.new }
{
    let mut starved = false;
    for tile in solved {
        let answer = board.keep_solved(alloc, tile);
        starved |= lacked_memory(&answer);
    }
    if starved { Err(AllocError) } else { Ok(()) }
}

/// Whether memory was lacking for a result.
fn lacked_memory(answer: &Result<(), KeepFault>) -> bool
    ensures { result ≡ is_starved answer.now }
{
    *answer == Err(KeepFault::Memory)
}

/// Whether a script has ended: it had before, or an answer says so.
fn has_ended(before: bool, answer: &Result<Advance, AdvanceFault>) -> bool
    ensures { result ≡ before || tells_end answer.now }
{
    before || *answer == Ok(Advance::Ended)
}

/// The passes of the analysts from 1 on, in order. The seat `giver` has given out no number yet.
fn first_passes(
    alloc: Global,
    hall: &Hall,
    giver: &mut Place,
    analysts: u32,
) -> Result<Vec<Pass>, AllocError>
    requires few { analysts < 2 ^ 32 - 1 }
    requires shape { hall.now.table_id.words ≡ 67 }
    requires own { giver.old.table_id ≡ hall.now.table_id }
    requires gives { (giver.old.me.0.gives ≡ true) × (giver.old.me.0.next ≡ 1) × (giver.old.me.0.own.seen ≡ []) × (giver.old.me.0.session ≡ Some hall.now.key.value) }
    ensures passes { IfOk result (λ passes. passes.items ≡ passes_to (desk_of hall.now.table_id hall.now.key.value) analysts) }
    ensures own { IfOk result (λ passes. All (IsPassOf (desk_of hall.now.table_id hall.now.key.value)) passes.items) }
    ensures analysts { IfOk result (λ passes. HaveAnalysts passes.items) }
{
    let mut passes = Vec::with_capacity(alloc, analysts as usize)?;
    for before in 0..analysts {
        passes.push(enroll(hall, giver, before + 1))?;
    }
    Ok(passes)
}

/// The pass of the next analyst, whose number its seat gets.
fn enroll(hall: &Hall, giver: &mut Place, number: u32) -> Pass
    requires shape { hall.now.table_id.words ≡ 67 }
    requires own { giver.old.table_id ≡ hall.now.table_id }
    requires gives { (giver.old.me.0.gives ≡ true) × (giver.old.me.0.next ≡ number) × (giver.old.me.0.own.seen ≡ []) }
    ensures own { giver.new.table_id ≡ giver.old.table_id }
    ensures gives { (giver.new.me.0.gives ≡ true) × (giver.new.me.0.next ≡ number + 1) × (giver.new.me.0.own.seen ≡ []) × (giver.new.me.0.session ≡ giver.old.me.0.session) }
    ensures pass { result ≡ record { table = giver.old.table_id; session = giver.old.me.0.session; analyst = Some number; seen = []; mine = []; ended = false } }
{
    let seat = hall.split_seat::<Enroll>(giver);
    Pass {
        seat,
        analyst: Some(number),
        heard: Heard {
            front: 0,
            newest: None,
            done: 0,
        },
        ended: false,
    }
}

/// A seat takes in another seat, and has then seen the longer of both histories.
fn take_in(hall: &Hall, seat: &mut Place, other: Place)
    requires shape { hall.now.table_id.words ≡ 67 }
    requires own { (seat.old.table_id ≡ hall.now.table_id) × (other.table_id ≡ hall.now.table_id) }
    requires idle { (seat.old.me.1 ≡ []) × (seat.old.me.0.holds ≡ false) × (other.me.1 ≡ []) }
    ensures own { (seat.new.table_id ≡ seat.old.table_id) × (seat.new.id ≡ seat.old.id) }
    ensures now { seat.new.me ≡ (longer_of seat.old.me.0 other.me.0, []) }
    ensures exact { seat.new.me.0.own.mine ≡ mine_of seat.new.me.0.own.analyst seat.new.me.0.own.seen }
    ensures merged { Merges seat.old.me.0 other.me.0 seat.new.me.0 }
{
    hall.join_seat::<Return>(seat, other);
    hall.load::<Look>(seat, 0);
}

/// The seat that has the board takes in a pass's seat, and finds that what the pass has seen begins the board's
/// history.
fn meet(hall: &Hall, first: &mut Place, other: Pass)
    requires shape { hall.now.table_id.words ≡ 67 }
    requires own { (first.old.table_id ≡ hall.now.table_id) × (other.table ≡ hall.now.table_id) }
    requires holds { first.old.me.0.holds ≡ true }
    ensures own { first.new.table_id ≡ first.old.table_id }
    ensures holds { (first.new.me.0.holds ≡ true) × (first.new.me.0.own ≡ first.old.me.0.own) }
    ensures stands { Stands first.old.me.0.own.seen other }
{
    let Pass { seat, .. } = other;
    hall.join_seat::<Settle>(first, seat);
    hall.load::<Look>(first, 0);
}
