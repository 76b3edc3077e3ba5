//! What a session asks of a run.

use crate::replay::{Replay, event_at};
use crate::views::{byte, doing, memory_text, next_text, register};
use m161_bus::Console;
use m161_dis::Style;
use m161_display::{show_cop0, show_regs, show_tlb, show_where};
use m161_moves::{Doing, Run};
use m161_server::Target;
use m161_steplog::write_schedule;
use m161_tlb::Tlb;
use std::alloc::{AllocError, Global};

impl<T: Tlb + Drop, D: Console + Drop> Target for Replay<T, D> {
    fn processors(&self) -> u32 {
        self.law();
        let core = self.state();
        core.law();
        core.processors()
    }

    fn count(&self) -> usize {
        self.events().len()
    }

    fn doing(&self, processor: u32) -> Doing {
        doing(self.state(), processor)
    }

    fn register(&self, processor: u32, number: u32) -> Option<u32> {
        register(self.state(), processor, number)
    }

    fn byte(&self, processor: u32, address: u32) -> Option<u8> {
        byte(self.state(), processor, address)
    }

    fn console(&self) -> &[u8] {
        self.state().output()
    }

    fn next_text(&self, alloc: Global) -> Result<String, AllocError> {
        next_text(alloc, self.state(), event_at(self.events(), self.place()))
    }

    fn schedule_text(&self, alloc: Global) -> Result<String, AllocError> {
        write_schedule(alloc, self.events_made())
    }

    fn trace_text(&self, alloc: Global, number: u32) -> Result<String, AllocError> {
        self.trace(alloc, number as usize)
    }

    fn where_text(&self, alloc: Global) -> Result<String, AllocError> {
        show_where(alloc, self.state(), &Style::plain(alloc))
    }

    fn registers_text(&self, alloc: Global, processor: u32) -> Result<String, AllocError> {
        show_regs(alloc, self.state(), processor)
    }

    fn cop0_text(&self, alloc: Global, processor: u32) -> Result<String, AllocError> {
        show_cop0(alloc, self.state(), processor)
    }

    fn tlb_text(&self, alloc: Global, processor: u32) -> Result<String, AllocError> {
        show_tlb(alloc, self.state(), processor)
    }

    fn memory_text(
        &self,
        alloc: Global,
        address: u32,
        number: u32,
    ) -> Result<Option<String>, AllocError> {
        memory_text(alloc, self.state(), address, number)
    }
}
