mod calls;
mod clocks;
mod closing;
mod receipts;
mod refusals;
mod sides;
mod team;
mod threads;
