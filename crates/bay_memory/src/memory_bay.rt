ghost use Rattle.std.specs.Prelude.{◌≡◌, ℕ, ◌+◌, ◌*◌, ◌<◌, ◌≤◌, ◌++◌, true, Some, None, length, option_map, IfOk, OnOk, OnErr, IsTrue, ◌↔◌};
ghost use Rattle.smore_base.specs.declared.limits.TheConstants.{BLOCK_BYTES};
ghost use Rattle.bay_memory.specs.Array.{AllSteady};
ghost use Rattle.bay_memory.specs.Views.{views_of};

use crate::array::Array;
use crate::asked::Asked;
use crate::crash::Crash;
use crate::image::Image;
use crate::keep::Keep;
use crate::operation::{Operation, Put};
use smore_base::Memory;
use std::alloc::{AllocError, Global};
use zone_bay::{Bay, Failed};

/// Zones of this many blocks have 4 GiB, which is more than this bay holds.
const TOO_MANY_BLOCKS: u32 = 1 << 23;

/// An array in memory. A zone has less than 4 GiB.
///
/// A call fails at the last moment, where it is listed, and on a lost device; an append also where there is no memory
/// for its bytes, and a call whose image is asked for where there is none for the image. A call that fails is counted
/// on its device, and leaves what is held as it was.
///
/// Each zone keeps what it held before, so that contracts can speak of each moment. No memory is given back.
#[derive(Drop)]
pub struct MemoryBay {
    array: Array,
    /// The moments of the calls that are to fail.
    listed: Vec<u64>,
    moment: u64,
    reads: u64,
    /// The call whose image is asked for.
    asked: Option<Asked>,
    /// The image that was asked for, until it is taken.
    kept: Option<Image>,
    ghost steady: { AllSteady moment (views_of array) },
}

impl MemoryBay {
    ghost use Rattle.zone_bay.specs.Outside.{last};
    ghost use Rattle.zone_bay.specs.Images.{without_each};
    ghost use Rattle.zone_bay.specs.Bay.{device_of, reads_after, Makes};
    ghost use Rattle.bay_memory.specs.Operation.{call_of, done_unless, IsWithin};
    ghost use Rattle.bay_memory.specs.Array.{AreFresh, KeepsTracks, AllKeepFailures, with_lost};
    ghost use Rattle.bay_memory.specs.Image.{image_shape, image_bytes};
    ghost use Rattle.bay_memory.specs.Keep.{kept, IsLeft};
    ghost use Rattle.bay_memory.specs.MemoryBay.{bay_views, bay_shape, bay_moment, contents_of, firm_of, lost_of, reads_of, state_of, listed_calls, asked_of, stored_of, kept_of, IsDue, IsDueOn, IsDueFor, IsAsked, IsBlank, IsNew, KeepsArray, KeepsRequests, TakesImage, Begins, MakesInMemory};

    /// A bay that holds nothing, has made no call and has no call listed. `Memory` comes too where a zone has 4 GiB
    /// or more.
    pub fn new(alloc: Global, devices: u8, zones: u16, blocks: u32) -> Result<MemoryBay, Memory>
        ensures { IfOk result (IsBlank devices zones blocks) }
    {
        if blocks >= TOO_MANY_BLOCKS {
            return Err(Memory);
        }
        let array = Array::blank(alloc, devices, zones, blocks)?;
        Ok(MemoryBay::with(alloc, array))
    }

    /// A bay that holds what the image has, all of it firm. No call was made, and no device is lost.
    pub fn from_image(alloc: Global, image: Image) -> MemoryBay
        ensures shape { bay_shape result ≡ image_shape image }
        ensures contents { contents_of result ≡ image_bytes image }
        ensures firm { (d z : ℕ) → firm_of result d z ≡ length (contents_of result d z) }
        ensures new { IsNew result }
    {
        MemoryBay::with(alloc, image.array)
    }

    /// A bay of this array, of which no call was made.
    fn with(alloc: Global, array: Array) -> MemoryBay
        requires { AreFresh (views_of array) }
        ensures array { result.array ≡ array }
        ensures new { IsNew result }
    {
        MemoryBay {
            array,
            listed: Vec::new(alloc),
            moment: 0,
            reads: 0,
            asked: None,
            kept: None,
        }
    }

    /// Lists calls that are to fail, beside those that are listed. The call made at moment m has the number m.
    pub fn fail_at(&mut self, calls: &[u64]) -> Result<(), Memory>
        ensures ok { OnOk result (listed_calls self.new ≡ listed_calls self.old ++ calls.now) }
        ensures err { OnErr result (listed_calls self.new ≡ listed_calls self.old) }
        ensures array { KeepsArray self.old self.new }
        ensures image { (asked_of self.new ≡ asked_of self.old) × (stored_of self.new ≡ stored_of self.old) }
    {
        self.listed.extend_from_slice(calls)?;
        Ok(())
    }

    /// Lets all later calls on the device fail until a `replace` of it is answered.
    pub fn lose(&mut self, device: u8)
        requires { device < (bay_shape self.old).devices }
        ensures lost { lost_of self.new ≡ with_lost device true (bay_views self.old) }
        ensures tracks { KeepsTracks (bay_views self.old) (bay_views self.new) }
        ensures failures { AllKeepFailures (bay_views self.old) (bay_views self.new) }
        ensures shape { bay_shape self.new ≡ bay_shape self.old }
        ensures moment { bay_moment self.new ≡ bay_moment self.old }
        ensures reads { reads_of self.new ≡ reads_of self.old }
        ensures requests { KeepsRequests self.old self.new }
    {
        self.array.lose(device);
    }

    /// What a crash now leaves of each zone, where the devices are removed. Numbers of which there is no device are
    /// passed over.
    pub fn crash(&self, keep: Keep, removed: &[u8]) -> Result<Image, Memory>
        ensures shape { IfOk result (λ image. image_shape image ≡ bay_shape self.now) }
        ensures exact { IfOk result (λ image. image_bytes image ≡ without_each removed.now (kept keep (contents_of self.now) (firm_of self.now))) }
        ensures allowed { IfOk result (λ image. IsLeft removed.now (contents_of self.now) (firm_of self.now) (image_bytes image)) }
    {
        let crash = Crash {
            keep,
            put: None,
            removed,
        };
        Ok(Image::of(*self.listed.allocator(), &self.array, &crash)?)
    }

    /// Asks for the image of the call that is made at this moment, when so many bytes of its append are done. A call
    /// that fails, a reset and a replace count as not done. An image that was asked for before is given up.
    pub fn image_at(&mut self, call: u64, bytes: u32)
        ensures asked { asked_of self.new ≡ Some (record { call = call; bytes = bytes }) }
        ensures kept { kept_of self.new ≡ None }
        ensures listed { listed_calls self.new ≡ listed_calls self.old }
        ensures array { KeepsArray self.old self.new }
    {
        self.asked = Some(Asked { call, bytes });
        self.kept = None;
    }

    /// The image that was asked for. `None` where its call hasn't come, was made before it was asked for, or found no
    /// memory; where another request took its place; or where it was given before.
    pub fn taken(&mut self) -> Option<Image>
        ensures taken { option_map (λ image. (image_shape image, image_bytes image)) result ≡ kept_of self.old }
        ensures gone { kept_of self.new ≡ None }
        ensures asked { asked_of self.new ≡ asked_of self.old }
        ensures listed { listed_calls self.new ≡ listed_calls self.old }
        ensures array { KeepsArray self.old self.new }
    {
        self.kept.take()
    }

    /// The bytes of a zone.
    pub fn held(&self, device: u8, zone: u16) -> &[u8]
        requires device_in { device < (bay_shape self.now).devices }
        requires zone_in { zone < (bay_shape self.now).zones }
        ensures { result.now ≡ contents_of self.now device zone }
    {
        self.array.held(device, zone)
    }

    /// Whether the call that is made next is to fail, whatever its device.
    fn is_due(&self) -> bool
        ensures { IsTrue result ↔ IsDue self.now }
    {
        self.moment == u64::MAX || self.listed.contains(&self.moment)
    }

    /// Whether it is to fail on this device, where it isn't a replacement.
    fn is_due_on(&self, device: u8) -> bool
        requires { device < (bay_shape self.now).devices }
        ensures { IsTrue result ↔ IsDueOn device self.now }
    {
        self.is_due() || self.array.is_lost(device)
    }

    /// Whether the image of the call that is made next is asked for.
    fn is_asked(&self) -> bool
        ensures { IsTrue result ↔ IsAsked self.now }
    {
        match &self.asked {
            Some(asked) => asked.call == self.moment,
            None => false,
        }
    }

    /// The number of reads of drives, once the call is made.
    fn reads_with(&self, operation: Operation<'_>) -> u64
        requires { device_of (call_of operation) < (bay_shape self.now).devices }
        ensures { result ≡ reads_after (call_of operation.entry) (state_of self.now) }
    {
        match operation {
            Operation::Read { device, .. } if device + 1 < self.array.devices() => {
                self.reads.saturating_add(1)
            }
            _ => self.reads,
        }
    }

    /// Takes the image of the call that is made now, if it is asked for.
    fn take_image(&mut self, due: bool, operation: Operation<'_>) -> Result<(), AllocError>
        requires { IsWithin (call_of operation) (bay_shape self.old) (contents_of self.old) }
        ensures image { TakesImage (done_unless due (call_of operation.entry)) self.old self.new result }
        ensures err { OnErr result (IsAsked self.old × (kept_of self.new ≡ None)) }
        ensures listed { listed_calls self.new ≡ listed_calls self.old }
        ensures array { KeepsArray self.old self.new }
    {
        let asked = match self.asked {
            Some(asked) if asked.call == self.moment => asked,
            _ => return Ok(()),
        };
        self.asked = None;
        self.kept = None;
        let crash = Crash {
            keep: Keep::All,
            put: operation.done(due, asked.bytes),
            removed: &[],
        };
        let image = Image::of(*self.listed.allocator(), &self.array, &crash)?;
        self.kept = Some(image);
        Ok(())
    }

    /// Counts a call, takes its image, and makes it where it isn't due to fail. No failure is counted yet.
    fn begin(&mut self, due: bool, operation: Operation<'_>) -> Result<(), Failed>
        requires within { IsWithin (call_of operation) (bay_shape self.old) (contents_of self.old) }
        requires last { bay_moment self.old ≡ last → due ≡ true }
        ensures { Begins due (call_of operation.entry) self.old self.new result }
    {
        let moment = self.moment;
        let reads = self.reads_with(operation);
        let asked = self.is_asked();
        let image = self.take_image(due, operation);
        self.moment = moment.saturating_add(1);
        self.reads = reads;
        if due || image.is_err() {
            return Err(Failed);
        }
        if self.array.make(moment, operation).is_err() {
            if asked {
                self.kept = None;
            }
            return Err(Failed);
        }
        Ok(())
    }

    /// Makes a call, and counts its failure.
    fn make(&mut self, due: bool, operation: Operation<'_>) -> Result<(), Failed>
        requires within { IsWithin (call_of operation) (bay_shape self.old) (contents_of self.old) }
        requires due { IsTrue due ↔ IsDueFor (call_of operation) self.old }
        ensures call { Makes (call_of operation.entry) (state_of self.old) (state_of self.new) result }
        ensures memory { MakesInMemory (call_of operation.entry) self.old self.new result }
    {
        let moment = self.moment;
        if self.begin(due, operation).is_err() {
            self.array.fail(moment, operation.device());
            return Err(Failed);
        }
        Ok(())
    }
}

impl Bay for MemoryBay {
    ghost use Rattle.zone_bay.specs.Bay.{Written, Read, Append, Reset, Flush, Replace, Makes};
    ghost use Rattle.zone_bay.specs.Contents.{Reads};
    ghost use Rattle.bay_memory.specs.MemoryBay.{state_of, bay_shape, contents_of, MakesInMemory};
    ghost use Rattle.bay_memory.specs.Sound.{is_sound};

    ghost state = { state_of };

    ghost sound = { is_sound };

    fn devices(&self) -> u8 {
        self.array.devices()
    }

    fn zones(&self) -> u16 {
        self.array.zones()
    }

    fn blocks(&self) -> u32 {
        self.array.blocks()
    }

    fn moment(&self) -> u64 {
        self.moment
    }

    fn written(&mut self, device: u8, zone: u16) -> Result<u32, Failed>
        requires device_in { device < (bay_shape self.old).devices }
        requires zone_in { zone < (bay_shape self.old).zones }
        ensures length { IfOk result (λ bytes. bytes ≡ length (contents_of self.old device zone)) }
        ensures call { Makes (Written device zone) (state_of self.old) (state_of self.new) result }
        ensures memory { MakesInMemory (Written device zone) self.old self.new result }
    {
        let due = self.is_due_on(device);
        self.make(due, Operation::Written { device, zone })?;
        Ok(self.held(device, zone).len() as u32)
    }

    fn read(&mut self, device: u8, zone: u16, at: u32, out: &mut [u8]) -> Result<(), Failed>
        requires device_in { device < (bay_shape self.old).devices }
        requires zone_in { zone < (bay_shape self.old).zones }
        requires written { at + length out.old ≤ length (contents_of self.old device zone) }
        ensures bytes { OnOk result (Reads (contents_of self.old device zone) at out.new) }
        ensures untouched { OnErr result (out.new ≡ out.old) }
        ensures call { Makes (Read device zone) (state_of self.old) (state_of self.new) result }
        ensures memory { MakesInMemory (Read device zone) self.old self.new result }
    {
        let due = self.is_due_on(device);
        let made = self.make(due, Operation::Read { device, zone });
        if made.is_ok() {
            let at = at as usize;
            out.copy_from_slice(&self.held(device, zone)[at..at + out.len()]);
        }
        made
    }

    // It fails where there is no memory for the bytes, too.
    fn append(&mut self, device: u8, zone: u16, bytes: &[u8]) -> Result<(), Failed>
        requires device_in { device < (bay_shape self.old).devices }
        requires zone_in { zone < (bay_shape self.old).zones }
        requires fits { length (contents_of self.old device zone) + length bytes.now ≤ BLOCK_BYTES * (bay_shape self.old).blocks }
        ensures call { Makes (Append device zone bytes.now) (state_of self.old) (state_of self.new) result }
        ensures memory { MakesInMemory (Append device zone bytes.now) self.old self.new result }
    {
        let put = Put {
            device,
            zone,
            bytes,
        };
        self.make(self.is_due_on(device), Operation::Append(put))
    }

    fn reset(&mut self, device: u8, zone: u16) -> Result<(), Failed>
        requires device_in { device < (bay_shape self.old).devices }
        requires zone_in { zone < (bay_shape self.old).zones }
        ensures call { Makes (Reset device zone) (state_of self.old) (state_of self.new) result }
        ensures memory { MakesInMemory (Reset device zone) self.old self.new result }
    {
        self.make(self.is_due_on(device), Operation::Reset { device, zone })
    }

    fn flush(&mut self, device: u8) -> Result<(), Failed>
        requires { device < (bay_shape self.old).devices }
        ensures call { Makes (Flush device) (state_of self.old) (state_of self.new) result }
        ensures memory { MakesInMemory (Flush device) self.old self.new result }
    {
        self.make(self.is_due_on(device), Operation::Flush { device })
    }

    fn replace(&mut self, device: u8) -> Result<(), Failed>
        requires { device < (bay_shape self.old).devices }
        ensures call { Makes (Replace device) (state_of self.old) (state_of self.new) result }
        ensures memory { MakesInMemory (Replace device) self.old self.new result }
    {
        self.make(self.is_due(), Operation::Replace { device })
    }
}
