// The program's arguments.
use std::env::FillError;
use std::rt::Env;

// Hands over each argument after the program's name, in order: None for one that is empty or longer than 64 bytes.
pub fn each<E: Env, F: FnMut(Option<&[u8]>) + Drop>(rt: &E, mut each: F)
    requires { F.IsAlwaysCallable each }
{
    let mut buffer = [0u8; 64];
    for i in 1..usize::MAX {
        match rt.arg(i, &mut buffer) {
            Ok(0) | Err(FillError::TooLong) => each(None),
            Ok(n) => each(Some(&buffer[..n])),
            Err(FillError::NotPresent) => {
                return;
            }
        }
    }
}
