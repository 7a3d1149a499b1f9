// Runs a program over standard input and standard output, and tells what failed. All programs that answer lines run here.
//
// What has arrived is answered before the program waits for more.
#![tactic(auto)]

ghost use Rattle.std.specs.Prelude.{◌≡◌, IfErr};
ghost use Rattle.std.specs.Process.{exit_status};
ghost use Rattle.filter.specs.Served.{Serves};

use std::io::{Input, Read};
use std::process::ExitCode;
use stream::{LIMIT, Program};
use telling::tell;

// What a program reads and writes, and what it calls itself where it tells that something failed. Which program it is goes beside
// this and not in it, so that the compiler knows it at each call and leaves the other programs out.
#[derive(Drop)]
struct Filter<'a, R> {
    rt: &'a R,
    name: &'a [u8],
}

// The first bytes of the line that goes on, how many of them are held, and room for what is put.
#[derive(Drop)]
struct Buffers {
    kept: [u8; LIMIT],
    held: usize,
    out: [u8; 65536],
}

// Each gives the status to end with where a read or a write failed, which is told.
impl<R: Print + Eprint> Filter<'_, R> {
    fn write(&self, bytes: &[u8]) -> Result<(), ExitCode>
        ensures { IfErr result (λ status. exit_status status ≡ 1) }
    {
        self.rt
            .write_all(bytes)
            .map_err(|why| tell(self.rt, self.name, b": standard output", why))
    }

    // Hands the responses to the lines that a block ends to the write, step by step.
    #[tactic(auto, using(crate::proofs::Along::goes_along))]
    fn serve(&self, program: Program, buffers: &mut Buffers, block: &[u8]) -> Result<(), ExitCode>
        ensures { Serves program buffers.old block.now buffers.new result }
    {
        let mut used = 0;
        // Kept: each step says how far it used the block, so no iterator counts here.
        while used < block.len() {
            let step = stream::step(
                program,
                &mut buffers.kept,
                buffers.held,
                block,
                used,
                &mut buffers.out,
            );
            self.write(&buffers.out[..step.at])?;
            buffers.held = step.held;
            used = step.used;
        }
        Ok(())
    }

    // The last line, where the input has no byte 10 behind it.
    fn serve_last(&self, program: Program, buffers: &mut Buffers) -> Result<(), ExitCode> {
        let n = stream::finish(program, &buffers.kept, buffers.held, &mut buffers.out);
        self.write(&buffers.out[..n])
    }
}

impl<R: Input + Print + Eprint> Filter<'_, R> {
    // A proved loop has to end, and nothing says that an input does. So the loop counts its turns, to a number that no run reaches.
    fn serve_all(
        &self,
        program: Program,
        buffers: &mut Buffers,
        buf: &mut [u8],
    ) -> Result<(), ExitCode> {
        let mut input = self.rt.reader();
        for _ in 0..u64::MAX {
            let n = input
                .read(buf)
                .map_err(|why| tell(self.rt, self.name, b": standard input", why))?;
            if n == 0 {
                return self.serve_last(program, buffers);
            }
            self.serve(program, buffers, &buf[..n])?;
        }
        Err(ExitCode::FAILURE)
    }
}

// The name is what the program calls itself where it tells that something failed. The status is that to end with.
pub fn run(rt: &(impl Input + Print + Eprint), program: Program, name: &[u8]) -> ExitCode {
    let mut buf = [0u8; 65536];
    let mut buffers = Buffers {
        kept: [0; LIMIT],
        held: 0,
        out: [0; 65536],
    };
    let filter = Filter { rt, name };
    match filter.serve_all(program, &mut buffers, &mut buf) {
        Ok(()) => ExitCode::SUCCESS,
        Err(status) => status,
    }
}
