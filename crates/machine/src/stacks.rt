// A thread's frames and a machine's threads, changed in place.
ghost use Rattle.std.specs.Prelude.{◌≡◌, []};
ghost use Rattle.list.specs.Held.{pushed};
ghost use Rattle.machine.specs.declared.threads.Status.TheVariants.{Running, Ended};
ghost use Rattle.machine.specs.World.{task_of, begun};
ghost use Rattle.machine.specs.Stacks.{frames_of, tasks_of, with_newest, returned_to};

use super::threads::{FRAMES, Frame, Machine, Status, Thread};
use list::Front;

impl Thread {
    // A thread that begins with a frame.
    pub fn begun(frame: Frame) -> Thread
        ensures { task_of result ≡ begun frame }
    {
        Thread {
            status: Status::Running,
            frames: Front {
                items: [frame; FRAMES],
                len: 1,
            },
        }
    }

    // Puts another frame in the place of the newest.
    pub fn go(&mut self, status: Status, frame: Frame)
        ensures { task_of self.new ≡ record { status = status; frames = with_newest (frames_of self.old) frame } }
    {
        self.status = status;
        self.frames.put_last(frame);
    }

    // Puts a frame above the newest, where there is room for one.
    pub fn push(&mut self, frame: Frame)
        ensures { task_of self.new ≡ record { status = self.old.status; frames = pushed 8 (frames_of self.old) frame } }
    {
        self.frames.push(frame);
    }

    // Takes the newest frame off, and puts another in the place of the one that waited.
    pub fn resume(&mut self, frame: Frame)
        ensures { task_of self.new ≡ record { status = Running; frames = returned_to (frames_of self.old) frame } }
    {
        self.status = Status::Running;
        self.frames.pop();
        self.frames.put_last(frame);
    }

    // Takes all frames off.
    pub fn end(&mut self)
        ensures { task_of self.new ≡ record { status = Ended; frames = [] } }
    {
        self.status = Status::Ended;
        self.frames.len = 0;
    }
}

impl Machine {
    // A thread more that begins with a frame, where there is room for one.
    pub fn spawn(&mut self, frame: Frame)
        ensures { tasks_of self.new ≡ pushed 8 (tasks_of self.old) (begun frame) }
    {
        self.threads.push(Thread::begun(frame));
    }
}
