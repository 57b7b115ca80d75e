//! The program `mapd`: runs its command line over the process's output and error streams and the network.
#![tactic(auto)]

use kept_report::{kept_path, tell_kept};
use map_server::{HostFiles, StreamSink, mapd_on, tell_unread_words};
use std::net::Net;
use std::process::ExitCode;
use std::random::RandomSource;
use std::rt::Clock;
use std::sync::Wait;
use std::thread::Threads;
use std::{env, io};

fn status<H: Threads + Wait + Clock + RandomSource + Net + Sync>(
    rt: &HostRuntime,
    serving: &H,
) -> io::Result<u8> {
    let alloc = rt.alloc();
    let words: Vec<String> = env::args(rt)?.collect(alloc)?;
    let words: Vec<&str> = words.iter().map(|word| word.as_str()).collect(alloc)?;
    let mut writer = StreamSink::new(rt.stdout());
    let mut errors = StreamSink::new(rt.stderr());
    if let Some(path) = kept_path(words.as_slice(), "--kept") {
        return Ok(tell_kept(rt, path, &mut writer, &mut errors));
    }
    let files = HostFiles { rt };
    Ok(mapd_on(
        serving,
        alloc,
        &files,
        words.as_slice(),
        &mut writer,
        &mut errors,
    ))
}

fn main(rt: HostRuntime) -> ExitCode {
    let status = match status(&rt, &rt) {
        Ok(status) => status,
        Err(error) => {
            let mut writer = StreamSink::new(rt.stdout());
            let mut errors = StreamSink::new(rt.stderr());
            tell_unread_words(&error, &mut writer, &mut errors)
        }
    };
    ExitCode::from(status)
}
