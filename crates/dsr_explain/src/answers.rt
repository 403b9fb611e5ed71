// What a command of this program answers.
use dsr_ir::NoMemory;
use dsr_script::{Status, Verdict};
use dsr_wording::Text;
use std::alloc::Global;

/// What a command of this program answers.
#[derive(Drop)]
pub struct Shown {
    pub status: Status,
    /// What is put to the standard output.
    pub text: String,
    /// What is told on the standard error.
    pub told: String,
}

/// The same, while it is written.
#[derive(Drop)]
pub struct Answer {
    pub status: Status,
    pub text: Text,
    pub told: Text,
}

impl Answer {
    /// Nothing.
    pub fn new(alloc: Global) -> Answer {
        Answer {
            status: Status::Said(Verdict::Ok),
            text: Text::new(alloc),
            told: Text::new(alloc),
        }
    }

    /// Refuses what is asked for, and tells why.
    pub fn refuse(&mut self, status: Status, told: &str) {
        self.status = status;
        self.told.push(told);
    }

    /// Keeps that memory ran out.
    pub fn cut(&mut self) {
        self.told.cut();
    }

    /// The allocator of the texts.
    pub fn allocator(&self) -> Global {
        self.told.allocator()
    }

    /// All of the answer, or that memory ran out.
    pub fn whole(self) -> Result<Shown, NoMemory> {
        let Answer { status, text, told } = self;
        let text = text.whole()?;
        let told = told.whole()?;
        Ok(Shown { status, text, told })
    }
}
