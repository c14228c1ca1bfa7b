ghost use Rattle.std.specs.Prelude.{◌≡◌, ◌<◌, ◌≤◌, ◌↔◌, length, IsTrue};
ghost use Rattle.bay_files.specs.declared.counts.TheConstants.{MAX_DEVICES};
ghost use Rattle.zone_bay.specs.Outside.{last};

use zone_bay::Failed;

/// Devices of a bay, at most: drives, and the flash.
pub(crate) const MAX_DEVICES: usize = 25;

/// What a bay counts: its calls, its reads of drives, and the faults of each device.
#[derive(Drop)]
pub(crate) struct Counts {
    moment: u64,
    reads: u64,
    /// How often each device has failed.
    faults: [u64; MAX_DEVICES],
    /// The moment of each device's first failed call; of a device that hasn't failed the last moment.
    first: [u64; MAX_DEVICES],
}

impl Counts {
    ghost use Rattle.bay_files.specs.declared.shape_line.ShapeLine.{ShapeLine};
    ghost use Rattle.bay_files.specs.Counts.{TellsCall, faults_of, faulted, later, with_read, shape_in, state_of};
    ghost use Rattle.bay_files.specs.FileBay.{IsFresh};

    /// No call was made.
    pub(crate) fn new() -> Counts
        ensures fresh { (line : ShapeLine) → line.devices ≤ MAX_DEVICES → IsFresh (shape_in line) (state_of (shape_in line) result) }
    {
        Counts {
            moment: 0,
            reads: 0,
            faults: [0; MAX_DEVICES],
            first: [u64::MAX; MAX_DEVICES],
        }
    }

    /// The number of calls so far.
    pub(crate) fn moment(&self) -> u64
        ensures { result ≡ self.now.moment }
    {
        self.moment
    }

    /// Whether a call that is made now can be answered.
    pub(crate) fn is_in_time(&self) -> bool
        ensures { IsTrue result ↔ (self.now.moment < last) }
    {
        self.moment < u64::MAX
    }

    /// Counts a call on the device, and its fault where it has no answer. `is_drive_read` tells whether it is a read of a drive.
    pub(crate) fn tell<T: Drop>(
        &mut self,
        device: u8,
        is_drive_read: bool,
        answer: Option<T>,
    ) -> Result<T, Failed>
        requires { device < MAX_DEVICES }
        ensures { TellsCall device is_drive_read self.old self.new result }
    {
        self.count_read(is_drive_read);
        match answer {
            Some(answer) if self.is_in_time() => {
                self.pass();
                Ok(answer)
            }
            _ => {
                self.fail(device);
                Err(Failed)
            }
        }
    }

    /// Counts a read of a drive, where it is one.
    fn count_read(&mut self, is_drive_read: bool)
        ensures { self.new ≡ with_read is_drive_read self.old }
    {
        if is_drive_read {
            self.reads = self.reads.saturating_add(1);
        }
    }

    /// Counts a call.
    fn pass(&mut self)
        ensures { self.new ≡ later self.old }
    {
        self.moment = self.moment.saturating_add(1);
    }

    /// Counts a call, and a fault of the device.
    fn fail(&mut self, device: u8)
        requires { device < MAX_DEVICES }
        ensures now { self.new ≡ later (faulted device self.old) }
        ensures past { (faults_of self.old device ≤ last) × (self.old.moment ≤ last) }
        ensures faults { device < length self.old.faults }
        ensures first { device < length self.old.first }
    {
        let index = device as usize;
        let faults = self.faults[index];
        self.first[index] = self.first[index].min(self.moment);
        self.faults[index] = faults.saturating_add(1);
        self.pass();
    }
}
