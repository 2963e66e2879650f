use crate::memory::{Area, MemHost};
use fk_base::{Bytes, NoMemory};
use std::alloc::Global;

/// The bytes of the three areas of a disk.
#[derive(Drop)]
pub struct Areas {
    pub head: Bytes,
    pub one: Bytes,
    pub two: Bytes,
}

impl Areas {
    pub fn new(alloc: Global) -> Self {
        Areas {
            head: Bytes::new(alloc),
            one: Bytes::new(alloc),
            two: Bytes::new(alloc),
        }
    }

    pub fn text(&self, area: Area) -> &Bytes {
        match area {
            Area::Head => &self.head,
            Area::One => &self.one,
            Area::Two => &self.two,
        }
    }

    pub fn set(&mut self, area: Area, bytes: Bytes) {
        match area {
            Area::Head => self.head = bytes,
            Area::One => self.one = bytes,
            Area::Two => self.two = bytes,
        }
    }

    /// A host over a disk with these areas.
    pub fn host(&self, alloc: Global) -> Result<MemHost, NoMemory> {
        MemHost::new(
            alloc,
            self.head.as_slice(),
            self.one.as_slice(),
            self.two.as_slice(),
        )
    }
}

/// What a crash at this moment may leave: with each write since the last sync, or with none. `None` where the host has made fewer calls.
pub fn left_by(host: &MemHost, moment: u64, keep: bool) -> Result<Option<Areas>, NoMemory> {
    if host.is_short() {
        return Err(NoMemory);
    }
    if moment > host.moments() {
        return Ok(None);
    }
    Ok(Some(Areas {
        head: host.image(moment, Area::Head, keep)?,
        one: host.image(moment, Area::One, keep)?,
        two: host.image(moment, Area::Two, keep)?,
    }))
}

/// What a read gives of the areas.
pub fn read_from(host: &MemHost) -> Result<Areas, NoMemory> {
    let areas = left_by(host, host.moments(), true)?;
    areas.ok_or(NoMemory)
}
