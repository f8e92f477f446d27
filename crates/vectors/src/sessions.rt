// Calls of one notebook, one after another, over the equations of a program:
//
//   session ID set constants|liveness start zero|any|none cells CELLS links LINKS
//   line OP a b             of the program, line by line
//   call ..                 and what is to come of it, as `calls` has it, for each call
//   end
use super::calls::CallCase;
use super::lines;
use super::questions::Question;
use super::replays::Replay;
use super::values::Spelled;
use analyses::constants::{Constants, Start};
use analyses::liveness::Liveness;
use anyhow::{Context, bail, ensure};
use drive::draft::Draft;
use drive::line::Line;
use drive::program::Program;
use solver::{Cell, Notebook};
use std::alloc::Global;

// A record, as far as its lines are there.
#[derive(Drop)]
pub(crate) struct SessionCase<'t> {
    id: &'t str,
    question: &'t str,
    start: &'t str,
    cells: usize,
    links: usize,
    lines: Vec<Line>,
    calls: Vec<CallCase<'t>>,
    ended: bool,
}

impl<'t> SessionCase<'t> {
    pub(crate) fn begin(heap: Global, head: &'t str) -> anyhow::Result<Self> {
        let words: Vec<&str> = head.split(' ').collect(heap)?;
        let [
            id,
            "set",
            question,
            "start",
            start,
            "cells",
            cells,
            "links",
            links,
        ] = words.as_slice()
        else {
            bail!("a session with a wrong first line");
        };
        Ok(SessionCase {
            id: *id,
            question: *question,
            start: *start,
            cells: cells.parse()?,
            links: links.parse()?,
            lines: Vec::new(heap),
            calls: Vec::new(heap),
            ended: false,
        })
    }

    // Takes one more line of the record.
    pub(crate) fn set(&mut self, line: &'t str) -> anyhow::Result<()> {
        ensure!(!self.ended, "a session that goes on after its end");
        let (key, value) = line.split_once(' ').unwrap_or((line, ""));
        match key {
            "line" => self.lines.push(lines::parse(value)?)?,
            "call" => self.calls.push(CallCase::begin(value))?,
            "end" => self.ended = true,
            _ => {
                let case = self.calls.last_mut().context("a session without a call")?;
                case.set(key, value)?;
            }
        }
        Ok(())
    }

    pub(crate) fn run(&self, rt: &HostRuntime) -> anyhow::Result<bool> {
        ensure!(self.ended, "a session without an end");
        let program = self.program()?;
        match (self.question, self.start) {
            ("constants", "none") => self.replay(rt, Constants::over(program, None)),
            ("constants", "zero") => self.replay(rt, Constants::over(program, Some(Start::Zero))),
            ("constants", "any") => self.replay(rt, Constants::over(program, Some(Start::Any))),
            ("liveness", "none") => self.replay(rt, Liveness::over(program)),
            _ => bail!("a session over no known set of equations"),
        }
    }

    fn program(&self) -> anyhow::Result<Program> {
        let mut draft = Draft::new();
        for line in &self.lines {
            ensure!(draft.add(*line).is_ok(), "a line that no program has");
        }
        let mut program = Program::new();
        ensure!(
            draft.finish(&mut program).is_ok(),
            "lines that are no program"
        );
        Ok(program)
    }

    // Makes the calls: whether all came out as the record says.
    fn replay<V: Spelled, E: Question<Value = V>>(
        &self,
        rt: &HostRuntime,
        equations: E,
    ) -> anyhow::Result<bool> {
        let heap = rt.alloc();
        let mut cells = vec![in heap; Cell::new(); self.cells]?;
        let mut links = vec![in heap; 0u64; self.links]?;
        let mut replay = Replay {
            notebook: Notebook::new(cells.as_mut_slice(), links.as_mut_slice()),
            equations,
        };
        self.calls.iter().try_fold(true, |same, case| {
            Ok(replay.run(rt, self.id, case)? && same)
        })
    }
}
