/// Opening and closing brackets, and what may stand before them.
pub const ROWS: &str = r##"([{⇒( 0-1, [ 1-2, { 2-3
)]}⇒) 0-1, ] 1-2, } 2-3
#(#[#{⇒( 0-2, [ 2-4, { 4-6
#s(#s[#s{⇒( 0-3, [ 3-6, { 6-9
#hash(#hasheq[#hasheqv{#hashalw(⇒( 0-6, [ 6-14, { 14-23, ( 23-32
#fl(#fx[#fx{⇒( 0-4, [ 4-8, { 8-12
#1(#12345678[#0{⇒( 0-3, [ 3-13, { 13-16
#hash( a⇒( 0-6, atom 7-8
#f(⇒atom 0-2, ( 2-3
a(b)c⇒atom 0-1, ( 1-2, atom 2-3, ) 3-4, atom 4-5
#123456789(⇒BadHash at 0
#hash (⇒BadHash at 0
#hashx(⇒BadHash at 0
#s⇒BadHash at 0
#fl⇒BadHash at 0
#hash|(⇒OpenBar at 0
#flx(⇒BadHash at 0
#1 (⇒BadHash at 0
(#)⇒BadHash at 1"##;
