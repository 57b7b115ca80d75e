//! Tests of frames that no process can show: a feeder on its own, and responses with large numbers. All other frames have
//! their rows in `tests/frames.txt`.
mod responses;
mod streams;
