//! A run goes back to each of its counts of steps, in scattered order, and must be as a plain run from
//! power-on was there that was made step by step: registers, memory, devices and live frames. A run with a
//! saved moment does so at some counts, and one with a near moment step by step. Logs, and which moments
//! stay, are compared with what the tests count themselves.

mod acts;
mod check;
mod finds;
mod inputs;
mod logs;
mod places;
mod play;
mod searches;
mod seen;
