mod asks;
mod reading;
mod restarts;
mod runs;
mod traces;
mod wires;
