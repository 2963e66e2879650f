//! What a session has, and what becomes of its lines.
use crate::answer::Answer;
use crate::areas::Areas;
use crate::comparing::compare;
use crate::fault::Fault;
use crate::fields::Fields;
use crate::line::Line;
use crate::memory::{MemFiles, MemHost, MemLink};
use crate::names::Names;
use crate::report::Report;
use crate::running::answer_to;
use crate::setting::{set_block, set_up};
use crate::setup::Setup;
use fk_base::{Bytes, Moment, NoMemory};
use std::alloc::Global;

/// What a session has. The texts, the files, the areas, the entropy and the client's moment stay; what is set up for a run is used up by
/// it.
#[derive(Drop)]
pub struct Stage {
    pub alloc: Global,
    pub names: Names,
    pub files: MemFiles,
    pub areas: Areas,
    /// The bytes that each run of the client draws from.
    pub entropy: Bytes,
    /// The moment of a run of the client.
    pub moment: Moment,
    pub setup: Setup,
    /// What was set up for the first of two runs.
    pub first: Option<Setup>,
    /// The host of the last run of the daemon.
    pub host: Option<MemHost>,
    /// The port at which it listened, if it did.
    pub port: Option<u16>,
    /// The link of the last run of the client.
    pub link: MemLink,
}

impl Stage {
    pub fn new(alloc: Global) -> Self {
        Stage {
            alloc,
            names: Names::new(alloc),
            files: MemFiles::new(alloc),
            areas: Areas::new(alloc),
            entropy: Bytes::new(alloc),
            moment: Moment::new(0).unwrap(),
            setup: Setup::new(alloc),
            first: None,
            host: None,
            port: None,
            link: MemLink::new(),
        }
    }

    /// Carries out a line. What it brings is compared with the lines below it.
    pub fn play(
        &mut self,
        line: &Line<'_>,
        below: &[Line<'_>],
        report: &mut Report,
    ) -> Result<(), NoMemory> {
        match self.answer(line, below) {
            Ok(None) => Ok(()),
            Ok(Some(answer)) => compare(&self.names, &answer, line, below, report),
            Err(Fault::NoMemory) => Err(NoMemory),
            Err(fault) => report.fail(line, fault.text(), b""),
        }
    }

    /// What the line brings, if it does more than to set something up.
    fn answer(&mut self, line: &Line<'_>, below: &[Line<'_>]) -> Result<Option<Answer>, Fault> {
        let mut fields = Fields::new(line.text);
        let word = fields.word()?;
        if set_block(self, word, &mut fields, below)? {
            return Ok(None);
        }
        if set_up(self, word, &mut fields)? {
            return none_below(below);
        }
        Ok(Some(answer_to(self, word, &mut fields)?))
    }

    /// What was set up, which is used up with this.
    pub fn take_setup(&mut self) -> Setup {
        std::mem::replace(&mut self.setup, Setup::new(self.alloc))
    }

    /// A host over the session's areas, by what was set up.
    pub fn take_host(&mut self) -> Result<MemHost, NoMemory> {
        let setup = self.take_setup();
        setup.host(&self.areas)
    }
}

fn none_below(below: &[Line<'_>]) -> Result<Option<Answer>, Fault> {
    if below.is_empty() {
        Ok(None)
    } else {
        Err(Fault::NotUnderstood)
    }
}
