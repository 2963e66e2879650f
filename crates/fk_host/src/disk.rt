//! A disk of three areas, as a journal sees it.
ghost use Rattle.std.specs.Prelude.{◌≡◌, ℕ, ◌+◌, ◌^◌, ◌≤◌, Option, length, take, drop, IfOk, OnErr, OnOk, IfSome};
ghost use Rattle.std.specs.Option.{ForSome};
ghost use Rattle.fk_host.specs.Count.{HasCause};
ghost use Rattle.fk_host.specs.Disk.{Areas, Told, Above, area_of, Written, Torn, Cut, Same, InArea, Synced, Calls, LeavesHost};

use fk_base::Failed;

/// One of the three byte texts of a disk.
#[derive(Clone, Copy, Debug, PartialEq, Eq)]
pub enum Area {
    Head,
    One,
    Two,
}

/// A host's disk. What it gives and what a crash may leave is said where it tells; its counts are said everywhere.
pub trait Disk {
    /// What a read gives, how many calls of the host were made, and the host's trace, where it tells them.
    ghost told: { Self → Option Told };

    /// What a crash may leave of the three areas at a moment: after so many calls of the host, none later than now.
    ghost may_leave: { Self → ℕ → Areas → Type 0 };

    /// How often a call of the disk has failed. It never falls.
    ghost faults: { Self → ℕ };

    /// What is said of the host above the disk.
    ghost above: { Self → Above };

    /// How many bytes the area has.
    fn len(&mut self, area: Area) -> Result<u64, Failed>
        ensures len { IfOk result (λ n. IfSome (told self.new) (λ now. n ≡ length (area_of area now.areas))) }
        ensures call { Calls told may_leave self.old self.new Same Same }
        ensures host { LeavesHost told above self.old self.new }
        ensures cause { HasCause (faults self.old) (faults self.new) result };

    /// Puts the area's bytes from `at` on at the front of the buffer, as many as there are and fit, and answers how many.
    fn read(&mut self, area: Area, at: u64, buf: &mut [u8]) -> Result<usize, Failed>
        ensures within { IfOk result (λ n. n ≤ length buf.new) }
        ensures bytes { IfOk result (λ n. IfSome (told self.new) (λ now. take n buf.new ≡ take (length buf.old) (drop at (area_of area now.areas)))) }
        ensures call { Calls told may_leave self.old self.new Same Same }
        ensures host { LeavesHost told above self.old self.new }
        ensures cause { HasCause (faults self.old) (faults self.new) result };

    /// Writes over the bytes at `at` and past the end. Until the area is synced, a crash may leave any bytes in the range. A
    /// write that ends past 2^40 is a fault. A failed one may have been done in part.
    fn write_at(&mut self, area: Area, at: u64, bytes: &[u8]) -> Result<(), Failed>
        requires { ForSome (told self.old) (λ now. at ≤ length (area_of area now.areas)) }
        ensures within { OnOk result (at + length bytes.now ≤ 2 ^ 40) }
        ensures ok { OnOk result (Calls told may_leave self.old self.new (InArea area (Written at bytes.now)) (InArea area (Torn at (length bytes.now)))) }
        ensures err { OnErr result (Calls told may_leave self.old self.new (InArea area (Torn at (length bytes.now))) (InArea area (Torn at (length bytes.now)))) }
        ensures host { LeavesHost told above self.old self.new }
        ensures cause { HasCause (faults self.old) (faults self.new) result };

    /// Cuts the area to a length. A failed cut may have been done in part.
    fn cut(&mut self, area: Area, len: u64) -> Result<(), Failed>
        requires { ForSome (told self.old) (λ now. len ≤ length (area_of area now.areas)) }
        ensures ok { OnOk result (Calls told may_leave self.old self.new (InArea area (λ old new. new ≡ take len old)) (InArea area (Cut len))) }
        ensures err { OnErr result (Calls told may_leave self.old self.new (InArea area (Cut len)) (InArea area (Cut len))) }
        ensures host { LeavesHost told above self.old self.new }
        ensures cause { HasCause (faults self.old) (faults self.new) result };

    /// After it, a crash leaves of the area what a read gives. A failed one, too, adds no image.
    fn sync(&mut self, area: Area) -> Result<(), Failed>
        ensures ok { OnOk result (IfSome (told self.new) (λ now. Calls told may_leave self.old self.new Same (Synced area now.areas))) }
        ensures err { OnErr result (Calls told may_leave self.old self.new Same Same) }
        ensures host { LeavesHost told above self.old self.new }
        ensures cause { HasCause (faults self.old) (faults self.new) result };

    /// What a read gives is one of the images of now, so there always is one.
    ghost read_is_an_image: { (disk : Self) → IfSome (told disk) (λ now. may_leave disk now.moments now.areas) };
}
