//! Serving of which only the end is told, for which the daemon has no words.
use crate::answer::Answer;
use crate::areas::read_from;
use crate::closed::ClosedFeed;
use crate::fault::Fault;
use crate::fields::Fields;
use crate::memory::Feed;
use crate::setup::Setup;
use crate::stage::Stage;
use fk_access::{Access, read_access};
use fk_base::FILE_LIMIT;
use fk_conf::{Conf, read_conf};
use fk_daemon::{Task, serve};
use fk_log::Verbosity;
use fk_run::Limits;
use fk_turn::Policy;

/// Serves all turns by a configuration and an access file, and tells only how it ended.
pub fn serve_quietly(stage: &mut Stage, fields: &mut Fields<'_>) -> Result<Answer, Fault> {
    let conf = conf_of(stage, fields.word()?)?;
    let access = access_of(stage, fields.word()?)?;
    let policy = Policy {
        conf: &conf,
        access: &access,
    };
    serve_by(stage, policy)
}

fn serve_by(stage: &mut Stage, policy: Policy<'_>) -> Result<Answer, Fault> {
    let setup = stage.take_setup();
    if setup.is_closed {
        return serve_feed(stage, policy, &setup, &mut ClosedFeed::new());
    }
    let mut feed = setup.feed(usize::MAX)?;
    serve_feed(stage, policy, &setup, &mut feed)
}

fn serve_feed<E: Feed>(
    stage: &mut Stage,
    policy: Policy<'_>,
    setup: &Setup,
    feed: &mut E,
) -> Result<Answer, Fault> {
    let mut host = setup.host(&stage.areas)?;
    let mut out = setup.sink();
    let limits = Limits {
        packets: None,
        turns: None,
    };
    let task = Task {
        policy,
        limits,
        verbosity: Verbosity::Quiet,
    };
    let status = serve(stage.alloc, &task, feed, &mut host, &mut out);
    stage.areas = read_from(&host)?;
    Ok(Answer::of_run(stage.alloc, out.written(), status)?)
}

fn conf_of(stage: &Stage, name: &str) -> Result<Conf, Fault> {
    let file = stage.files.find(name.as_bytes()).ok_or(Fault::Unknown)?;
    let text = file.bytes.as_slice();
    if text.len() > FILE_LIMIT {
        return Err(Fault::OutOfPlace);
    }
    read_conf(text).map_err(|_| Fault::OutOfPlace)
}

fn access_of(stage: &Stage, name: &str) -> Result<Access, Fault> {
    let file = stage.files.find(name.as_bytes()).ok_or(Fault::Unknown)?;
    let text = file.bytes.as_slice();
    if text.len() > FILE_LIMIT {
        return Err(Fault::OutOfPlace);
    }
    read_access(stage.alloc, text).map_err(|_| Fault::OutOfPlace)
}
