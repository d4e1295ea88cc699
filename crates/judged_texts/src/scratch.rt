//! Tables that are kept from one pair of texts to the next.
ghost use Rattle.std.specs.Prelude.{◌≤◌, IfOk, length};
ghost use Rattle.command_words.specs.Requests.{IsNumberOfWorkers};
ghost use Rattle.judged_texts.specs.Judgement.{IsJudgement};
ghost use Rattle.judged_texts.specs.Reading.{most_bytes};

use crate::judgement::Judgement;
use crate::judging::{Workers, bytes_of, judge_from, judge_on};
use crate::pools::{LEAST_BITS, MOST_BITS, pool_bits};
use crate::tables::{Tables, cleared_or_new, kept};
use crate::texts::Texts;
use file_ports::Gate;
use pair_pool::Memory;
use std::alloc::Global;
use std::marker::Model;
use std::mem::replace;
use std::thread::Threads;

/// Texts of more bytes begin with a larger pool (`pool_bits`) and don't use the scratch. So its tables never grow large, and clearing them
/// stays cheap.
const SMALL_BYTES: usize = 1 << 14;

/// What many pairs of small texts are judged with, one pair after the other: a table of symbols and a pool of the least size, which
/// are made for the first pair and cleared for each further one. Contracts see nothing of it.
#[derive(Drop)]
pub struct Scratch {
    /// None before the first pair, and where a call was out of memory, or had more than one worker.
    tables: Option<Tables>,
}

impl Model for Scratch {
    ghost use Rattle.std.specs.Prelude.{IfSome};
    ghost use Rattle.judged_texts.specs.Tables.{HasForItself};

    ghost Value = { Unit {0} };

    ghost view = { λ _. tt };

    ghost invariant = { λ scratch. IfSome scratch.tables (λ tables. HasForItself tables 12) };
}

impl Scratch {
    /// One that has nothing yet. Takes no memory.
    pub fn new() -> Scratch {
        Scratch { tables: None }
    }

    // What the two texts come to, with the tables that are kept, or with new ones.
    fn judge_small<R: Threads + Sync, G: Gate>(
        &mut self,
        workers: &Workers<'_, R, G>,
        alloc: Global,
        texts: &Texts<'_>,
    ) -> Result<Judgement, Memory>
        requires workers { IsNumberOfWorkers workers.now.count }
        requires problem { length texts.now.problem.now ≤ most_bytes }
        requires proof { length texts.now.proof.now ≤ most_bytes }
        ensures { IfOk result (IsJudgement texts.now.problem.now texts.now.options texts.now.proof.now 12) }
    {
        let tables = cleared_or_new(alloc, self.tables.take())?;
        let (judgement, tables) = judge_on(workers, alloc, texts, tables)?;
        // What owns much is let go by a call: let go in parts it is dear to prove.
        drop(replace(&mut self.tables, kept(workers.count, tables)));
        Ok(judgement)
    }

    /// Judges the texts of a problem and of a proof as [`judge`](crate::judge) does, whatever was judged with this scratch before.
    ///
    /// Small texts are judged with the tables of the call before, where that kept them: they are cleared, in the time that it takes to
    /// write some 4,096 words. Larger texts, and those whose terms have no room in 4,096 places, have tables of their own, which are
    /// not kept.
    pub fn judge<R: Threads + Sync, G: Gate>(
        &mut self,
        workers: &Workers<'_, R, G>,
        alloc: Global,
        texts: &Texts<'_>,
        most_bits: u32,
    ) -> Result<Judgement, Memory>
        requires workers { IsNumberOfWorkers workers.now.count }
        requires problem { length texts.now.problem.now ≤ most_bytes }
        requires proof { length texts.now.proof.now ≤ most_bytes }
        requires least { LEAST_BITS ≤ most_bits }
        requires most { most_bits ≤ MOST_BITS }
        ensures { IfOk result (IsJudgement texts.now.problem.now texts.now.options texts.now.proof.now most_bits) }
    {
        let bytes = bytes_of(texts);
        if bytes > SMALL_BYTES {
            let first_bits = pool_bits(bytes, most_bits);
            return judge_from(workers, alloc, texts, first_bits, most_bits);
        }
        match self.judge_small(workers, alloc, texts)? {
            Judgement::PoolFull => {}
            judgement => return Ok(judgement),
        }
        if most_bits == LEAST_BITS {
            return Ok(Judgement::PoolFull);
        }
        judge_from(workers, alloc, texts, LEAST_BITS + 1, most_bits)
    }
}
