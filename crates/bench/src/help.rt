// What `bench --help` prints.
pub const HELP: &str =
    "bench: a USB link on a bench, whose packets, cables and disk do what a script says.

use: bench [SCRIPT..]

Each SCRIPT is a file, run from a fresh start; with none, the script is read from standard input.
At the start both cables deliver, the port is open, and the disk has 4 blank sectors.
A script has one step a line. A blank line and a line that begins with # are passed over. Every
other line is echoed after '> ', and below it stands what came of it. A refusal has its number.
The status is 1 if a line was not understood or a file could not be read.

packets, with bytes as two hexadecimal digits in lower case and numbers in decimal:
  packet BYTES                        read bytes as a packet, as in: packet 2d 01 e8
  build token KIND ADDRESS ENDPOINT   OUT, IN or SETUP, as in: build token SETUP 1 0
  build data KIND BYTES               DATA0 or DATA1, as in: build data DATA0 00 05 01
  build handshake KIND                ACK, NAK or STALL, as in: build handshake ACK

the hub, which carries bytes over cable 1 and cable 2 and counts what they spoil:
  cable 1 ENTRIES, cable 2 ENTRIES    give a cable a new script, as in: cable 1 0 65535 12
                                      0 delivers, 65535 loses, any other entry flips a bit
  port open, port closed              as in: port closed
  carry outward BYTES                 to the reader, as in: carry outward 2d 01 e8
  carry homeward BYTES                to the cradle, as in: carry homeward d2
  clear                               set the hub's tally to 0, as in: clear

the disk:
  memory LENGTH                       a plain disk on so many zeros, as in: memory 2048
  memory LENGTH SEED                  or on the pattern of a seed, as in: memory 2048 7
  lock                                put a lock over the disk, as in: lock
  sector NUMBER                       read a sector into 512 bytes, as in: sector 3
  sector NUMBER LENGTH                or into so many, as in: sector 3 511
  put NUMBER SEED                     write the pattern of a seed to a sector, as in: put 3 21
  put NUMBER SEED LENGTH              or so many bytes of it, as in: put 3 21 511

A LENGTH above 67108864 (64 MiB) counts as that, a sector above 4294967295 as that, and an entry
above 65535 as that. A SEED counts modulo 256. The mark of a sector is made of all its bytes: from 0,
each byte in turn multiplies it by 31 and adds itself, modulo 2^32.
";
