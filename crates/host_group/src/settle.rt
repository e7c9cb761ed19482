//! A right settles its member.
ghost use Rattle.std.specs.Prelude.{◌≡◌, ◌/◌, MatchOption};
ghost use Rattle.host_record.specs.declared.status.Status.TheVariants.{Ok};
ghost use Rattle.host_group.specs.Seats.{IsRight, IsSeatUnused, IsUsed, row};
ghost use Rattle.host_group.specs.Ends.{end_of, end_in_row};
ghost use Rattle.host_group.specs.Steps.{IsLast};
ghost use Rattle.host_group.specs.declared.view.Progress.TheVariants.{Unsettled, Last, Ended};
ghost use Rattle.host_group.specs.declared.view.Progress.TheVariants.{Passed};

use crate::cells::{CLOSING, Cells, DEVICE_FRONT, ERROR, MEMORY_FRONT};
use crate::failure::{NO_FAILURE, failure_word, status_of};
use crate::group_end::GroupEnd;
use crate::seat::CellSeat;
use crate::steps::{
    Free, PutDeviceFront, PutError, PutMemoryFront, Settle, TakeClosing, TakeDeviceFront,
    TakeError, TakeMemoryFront,
};
use host_record::Status;

impl Cells {
    /// Settles the member that the right is for. The last one of a closed instance is told how the
    /// instance ended. It waits for nobody.
    pub fn settle(
        &self,
        right: &mut CellSeat,
        g: u16,
        index: u32,
        status: Status,
        device_front: u64,
        memory_front: u64,
    ) -> Option<GroupEnd>
        requires right { IsRight self.now g right.old × IsSeatUnused right.old }
        requires index { (row right.old).member.index ≡ index }
        ensures right { IsRight self.now g right.new × IsUsed right.new
            × ((row right.new).member ≡ (row right.old).member) }
        ensures told { ((row right.new).status ≡ status)
            × ((row right.new).device_front ≡ device_front)
            × ((row right.new).memory_front ≡ memory_front) }
        ensures last { MatchOption result (IsLast (row right.new).found → ⊥)
            (λ _. IsLast (row right.new).found) }
        ensures end { result ≡ end_of (row right.new) }
    {
        self.put_error(right, g, index, status);
        self.put_device_front(right, g, device_front);
        self.put_memory_front(right, g, memory_front);
        match self.count_off(right, g) {
            Some(count) => Some(self.take_end(right, g, count)),
            None => None,
        }
    }

    fn put_error(&self, right: &mut CellSeat, g: u16, index: u32, status: Status)
        requires right { IsRight self.now g right.old × ((row right.old).progress ≡ Unsettled)
            × ((row right.old).status ≡ Ok) }
        requires index { (row right.old).member.index ≡ index }
        ensures { IsRight self.now g right.new
            × (row right.new ≡ record (row right.old) { status = status }) }
    {
        match status {
            Status::Ok => {}
            _ => {
                let word = failure_word(index, status);
                self.table
                    .shared
                    .fetch_min::<PutError>(&mut right.seat, 5 * g as usize + ERROR, word);
            }
        }
    }

    fn put_device_front(&self, right: &mut CellSeat, g: u16, front: u64)
        requires { IsRight self.now g right.old × ((row right.old).progress ≡ Unsettled)
            × ((row right.old).device_front ≡ 0) }
        ensures { IsRight self.now g right.new
            × (row right.new ≡ record (row right.old) { device_front = front }) }
    {
        let word = 5 * g as usize + DEVICE_FRONT;
        self.table
            .shared
            .fetch_max::<PutDeviceFront>(&mut right.seat, word, front);
    }

    fn put_memory_front(&self, right: &mut CellSeat, g: u16, front: u64)
        requires { IsRight self.now g right.old × ((row right.old).progress ≡ Unsettled)
            × ((row right.old).memory_front ≡ 0) }
        ensures { IsRight self.now g right.new
            × (row right.new ≡ record (row right.old) { memory_front = front }) }
    {
        let word = 5 * g as usize + MEMORY_FRONT;
        self.table
            .shared
            .fetch_max::<PutMemoryFront>(&mut right.seat, word, front);
    }

    // The number of members, where this one was the last of a closed instance.
    fn count_off(&self, right: &mut CellSeat, g: u16) -> Option<u32>
        requires { IsRight self.now g right.old × ((row right.old).progress ≡ Unsettled) }
        ensures right { IsRight self.now g right.new }
        ensures row { MatchOption result ((row right.new
            ≡ record (row right.old) { progress = Passed; found = (row right.new).found })
            × (IsLast (row right.new).found → ⊥)) (λ n.
            (row right.new
            ≡ record (row right.old) { progress = Last; found = (row right.new).found })
            × IsLast (row right.new).found × (n ≡ (row right.new).found / 256)) }
    {
        let left = self
            .table
            .shared
            .fetch_sub::<Settle>(&mut right.seat, 5 * g as usize, 1);
        if left % 256 == 129 {
            Some((left / 256) as u32)
        } else {
            None
        }
    }

    // Takes the words out, and frees the number.
    fn take_end(&self, right: &mut CellSeat, g: u16, count: u32) -> GroupEnd
        requires { IsRight self.now g right.old × ((row right.old).progress ≡ Last)
            × ((row right.old).found / 256 ≡ count) }
        ensures right { IsRight self.now g right.new }
        ensures row { row right.new
            ≡ record (row right.old) {
              progress = Ended;
              end_error = (row right.new).end_error;
              end_device_front = (row right.new).end_device_front;
              end_memory_front = (row right.new).end_memory_front;
              end_closing = (row right.new).end_closing;
            } }
        ensures end { result ≡ end_in_row (row right.new) }
    {
        let words = &self.table.shared;
        let left = 5 * g as usize;
        let error = words.swap::<TakeError>(&mut right.seat, left + ERROR, NO_FAILURE);
        let device_front = words.swap::<TakeDeviceFront>(&mut right.seat, left + DEVICE_FRONT, 0);
        let memory_front = words.swap::<TakeMemoryFront>(&mut right.seat, left + MEMORY_FRONT, 0);
        let closing = words.swap::<TakeClosing>(&mut right.seat, left + CLOSING, 0);
        words.store::<Free>(&mut right.seat, left, 0);
        GroupEnd {
            status: status_of(error),
            count,
            reqid: (closing / 4294967296) as u32,
            index: (closing % 4294967296) as u32,
            device_front,
            memory_front,
        }
    }
}
