//! The files of the disk's areas. Each is opened once and from then on used by its descriptor; its name is only asked whether it still
//! means that file.
ghost use Rattle.std.specs.Prelude.{◌≡◌, ◌+◌, ◌≤◌, ◌^◌, length, IfOk, OnOk};

use crate::waiting::{TRIES, pause};
use fk_host::Area;
use libc::types::rlimit;
use std::fs::{File, OpenOptions, Permissions, TryLockError};
use std::io::ErrorKind;
use std::os::unix::fs::{FileExt, MetadataExt, OpenOptionsExt, PermissionsExt};
use std::rt::Files;
use std::time::Clock;
use std::{fs, io};

/// A write that ends past this place is a fault.
const GREATEST_END: u64 = 1 << 40;

/// The file that is locked.
const LOCKED: Area = Area::One;

/// Its owner may read and write a file that is made here, and nobody else.
const OWNERS_ALONE: u32 = 0o600;

/// Others than its owner may write the file.
const OTHERS_WRITE: u32 = 0o022;

/// POSIX's resource that `ulimit -f` limits.
const FILE_SIZE: i32 = 1;

/// A file that is open, to be read alone or to be written too.
#[derive(Drop)]
struct Opened {
    file: File,
    writes: bool,
}

/// The files `fwknopd.head`, `fwknopd.one` and `fwknopd.two` of the current folder, each once it is open.
#[derive(Drop)]
pub(crate) struct AreaFiles {
    head: Option<Opened>,
    one: Option<Opened>,
    two: Option<Opened>,
    is_locked: bool,
}

impl AreaFiles {
    pub fn new() -> Self {
        AreaFiles {
            head: None,
            one: None,
            two: None,
            is_locked: false,
        }
    }

    pub fn length<R: Files<File = File>>(&mut self, rt: &R, area: Area) -> io::Result<u64> {
        self.open_to_read(rt, area)?;
        match self.opened(area) {
            Some(opened) => Ok(opened.file.metadata()?.len()),
            None => Ok(0),
        }
    }

    pub fn bytes<R: Files<File = File>>(
        &mut self,
        rt: &R,
        area: Area,
        at: u64,
        buf: &mut [u8],
    ) -> io::Result<usize>
        ensures { IfOk result (λ n. n ≤ length buf.new) }
    {
        self.open_to_read(rt, area)?;
        match self.opened(area) {
            Some(opened) => fill(&opened.file, at, buf),
            None => Ok(0),
        }
    }

    /// A file that ends before `at` was cut by somebody else, and a write would leave a hole.
    pub fn put<R: Files<File = File> + Clock>(
        &mut self,
        rt: &R,
        area: Area,
        at: u64,
        bytes: &[u8],
    ) -> io::Result<()>
        ensures within { OnOk result (at + length bytes.now ≤ 2 ^ 40) }
    {
        let end = at.saturating_add(bytes.len() as u64);
        if end > GREATEST_END || end > greatest_size() {
            return Err(ErrorKind::FileTooLarge.into());
        }
        let file = self.open_to_write(rt, area)?;
        check_end(file, at)?;
        file.write_all_at(bytes, at)
    }

    pub fn shorten<R: Files<File = File> + Clock>(
        &mut self,
        rt: &R,
        area: Area,
        len: u64,
    ) -> io::Result<()> {
        let file = self.open_to_write(rt, area)?;
        check_end(file, len)?;
        file.set_len(len)
    }

    pub fn settle<R: Files<File = File> + Clock>(&mut self, rt: &R, area: Area) -> io::Result<()> {
        self.open_to_write(rt, area)?.sync_all()
    }

    /// Opens the area's file where it is not open and there is one. None is made.
    fn open_to_read<R: Files<File = File>>(&mut self, rt: &R, area: Area) -> io::Result<()> {
        if let Some(opened) = self.opened(area) {
            return check_name(rt, area, &opened.file);
        }
        if let Some(file) = find(rt, area, File::options().read(true))? {
            self.keep(
                area,
                Opened {
                    file,
                    writes: false,
                },
            );
        }
        Ok(())
    }

    /// The area's file to write to, which is made where there is none. The first call locks the journal's file.
    fn open_to_write<R: Files<File = File> + Clock>(
        &mut self,
        rt: &R,
        area: Area,
    ) -> io::Result<&File> {
        if !self.is_locked {
            self.take_lock(rt)?;
        }
        // the locked file has to have its name still, whichever area is written; whoever had the lock may have put another one there
        self.make_writable(rt, LOCKED)?;
        self.make_writable(rt, area)?;
        match self.opened(area) {
            Some(opened) => Ok(&opened.file),
            None => Err(ErrorKind::NotFound.into()),
        }
    }

    fn take_lock<R: Files<File = File> + Clock>(&mut self, rt: &R) -> io::Result<()> {
        self.make_writable(rt, LOCKED)?;
        if let Some(opened) = self.opened(LOCKED) {
            wait_for_lock(rt, &opened.file)?;
        }
        // a run before this one may have made files and ended before it synced the folder
        sync_folder(rt)?;
        self.is_locked = true;
        Ok(())
    }

    fn make_writable<R: Files<File = File>>(&mut self, rt: &R, area: Area) -> io::Result<()> {
        if let Some(opened) = self.opened(area) {
            check_name(rt, area, &opened.file)?;
            if opened.writes {
                return Ok(());
            }
        }
        let file = find_or_make(rt, area)?;
        self.keep(area, Opened { file, writes: true });
        Ok(())
    }

    fn opened(&self, area: Area) -> Option<&Opened> {
        match area {
            Area::Head => self.head.as_ref(),
            Area::One => self.one.as_ref(),
            Area::Two => self.two.as_ref(),
        }
    }

    fn keep(&mut self, area: Area, opened: Opened) {
        match area {
            Area::Head => self.head = Some(opened),
            Area::One => self.one = Some(opened),
            Area::Two => self.two = Some(opened),
        }
    }
}

fn name_of(area: Area) -> &'static str {
    match area {
        Area::Head => "fwknopd.head",
        Area::One => "fwknopd.one",
        Area::Two => "fwknopd.two",
    }
}

/// The area's file, where there is one. What is no file of this user alone is not opened, so that a FIFO keeps nobody waiting.
fn find<R: Files<File = File>>(
    rt: &R,
    area: Area,
    options: &OpenOptions,
) -> io::Result<Option<File>> {
    match fs::symlink_metadata(rt, name_of(area)) {
        Ok(found) if !found.is_file() => return Err(ErrorKind::InvalidInput.into()),
        Ok(_) => {}
        Err(error) if error.kind() == ErrorKind::NotFound => return Ok(None),
        Err(error) => return Err(error),
    }
    let file = options.open(rt, name_of(area))?;
    check_owner(&file)?;
    check_name(rt, area, &file)?;
    Ok(Some(file))
}

fn find_or_make<R: Files<File = File>>(rt: &R, area: Area) -> io::Result<File> {
    match find(rt, area, File::options().read(true).write(true))? {
        Some(file) => Ok(file),
        None => make(rt, area),
    }
}

/// Makes the area's file, and syncs the folder so that it stays.
fn make<R: Files<File = File>>(rt: &R, area: Area) -> io::Result<File> {
    let file = File::options()
        .read(true)
        .write(true)
        .create_new(true)
        .mode(OWNERS_ALONE)
        .open(rt, name_of(area))?;
    // a umask may have taken some of the owner's bits
    file.set_permissions(Permissions::from_mode(OWNERS_ALONE))?;
    sync_folder(rt)?;
    Ok(file)
}

/// Syncs the current folder, so that the files that stand in it stay.
fn sync_folder<R: Files<File = File>>(rt: &R) -> io::Result<()> {
    File::options().read(true).open(rt, ".")?.sync_all()
}

/// Waits a little for the lock, which a daemon that was just killed may have left to a child that it began to start.
fn wait_for_lock<R: Clock>(rt: &R, file: &File) -> io::Result<()> {
    for _ in 0..TRIES {
        match file.try_lock() {
            Err(TryLockError::WouldBlock) => pause(rt),
            Err(TryLockError::Error(error)) => return Err(error),
            Ok(()) => return Ok(()),
        }
    }
    file.try_lock()?;
    Ok(())
}

/// The file is one of this user, and nobody else may write it.
fn check_owner(file: &File) -> io::Result<()> {
    let found = file.metadata()?;
    let others_write = found.permissions().mode() & OTHERS_WRITE != 0;
    if !found.is_file() || found.uid() != libc::geteuid() || others_write {
        return Err(ErrorKind::PermissionDenied.into());
    }
    Ok(())
}

/// The area's name means the file that is open.
fn check_name<R: Files<File = File>>(rt: &R, area: Area, file: &File) -> io::Result<()> {
    let named = fs::symlink_metadata(rt, name_of(area))?;
    let found = file.metadata()?;
    if named.dev() != found.dev() || named.ino() != found.ino() {
        return Err(ErrorKind::NotFound.into());
    }
    Ok(())
}

/// The file reaches to this place at least.
fn check_end(file: &File, place: u64) -> io::Result<()> {
    if place > file.metadata()?.len() {
        return Err(ErrorKind::UnexpectedEof.into());
    }
    Ok(())
}

/// How long a file may get that this process writes. A write past it would end the process by a signal.
fn greatest_size() -> u64 {
    let mut limit = rlimit {
        rlim_cur: u64::MAX,
        rlim_max: u64::MAX,
    };
    let _known = libc::getrlimit(FILE_SIZE, &mut limit);
    limit.rlim_cur
}

/// Fills the buffer from a place of the file on, as far as there are bytes.
fn fill(file: &File, at: u64, buf: &mut [u8]) -> io::Result<usize>
    ensures { IfOk result (λ n. n ≤ length buf.new) }
{
    let mut count = 0;
    for _ in 0..u64::MAX {
        if count >= buf.len() {
            break;
        }
        match file.read_at(&mut buf[count..], at.saturating_add(count as u64)) {
            Ok(0) => break,
            Ok(more) => count += more,
            Err(error) if error.kind() == ErrorKind::Interrupted => {}
            Err(error) => return Err(error),
        }
    }
    Ok(count)
}
