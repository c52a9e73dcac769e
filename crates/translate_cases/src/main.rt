//! Translates each chart of standard input, one after the other with a - between them. Prints the refusal's frame, or the image; of an
//! image of more than 60 frames the first and the last.
#![tactic(auto)]

ghost use Rattle.std.specs.Prelude.{◌≤◌, length};

// Where the chart that begins at a place ends.
fn end_of(text: &[u8], start: usize) -> usize
    requires { start ≤ length text.now }
    ensures onward { start ≤ result }
    ensures inside { result ≤ length text.now }
{
    let mut i = start;
    while i < text.len() {
        if text[i] == 45 {
            return i;
        }
        i += 1;
    }
    i
}

fn show(image: &[u8]) {
    let n = image.len();
    if n <= 1380 {
        io::write_all(1, image);
        return;
    }
    let last = n - 23;
    io::write_all(1, &image[..23]);
    io::write_all(1, &image[last..n]);
}

fn run(text: &[u8]) {
    let mut image = [0u8; 29831];
    match translator::translating::translate(text, &mut image) {
        Ok(count) => show(&image[..count]),
        Err(refusal) => {
            let line = output::printing::refusal_line(refusal.number(), refusal.index());
            io::write_all(1, &line);
        }
    }
}

fn run_all(text: &[u8]) {
    let n = text.len();
    let mut start: usize = 0;
    while start < n {
        let end = end_of(text, start);
        run(&text[start..end]);
        io::write_all(1, b"-\n");
        start = end + 1;
    }
}

fn main() {
    let mut buffer = [0u8; 20000];
    let n = io::read_full(0, &mut buffer);
    run_all(&buffer[..n]);
}
