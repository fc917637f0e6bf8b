/// Symbols, numbers, keywords, characters, booleans and dots.
pub const ROWS: &str = r##"abc⇒atom 0-3
a|b c|d e⇒atom 0-7, atom 8-9
a\ b⇒atom 0-4
|a b|⇒atom 0-5
|a⏎b|⇒atom 0-5
|a␍⏎b|⇒atom 0-6
a\|b⇒atom 0-4
a#b⇒atom 0-3
x#|a|#⇒atom 0-6
#t #T #true⇒atom 0-2, atom 3-5, atom 6-11
#f #F #false⇒atom 0-2, atom 3-5, atom 6-12
#t)⇒atom 0-2, ) 2-3
#true"a"⇒atom 0-5, string 5-8
#d1 #b1 #o1 #x1 #e1 #i1⇒atom 0-3, atom 4-7, atom 8-11, atom 12-15, atom 16-19, atom 20-23
#D1 #B1 #O1 #X1 #E1 #I1⇒atom 0-3, atom 4-7, atom 8-11, atom 12-15, atom 16-19, atom 20-23
#:key #: #%app⇒atom 0-5, atom 6-8, atom 9-14
#1# #12345678#⇒atom 0-3, atom 4-14
#1#]⇒atom 0-3, ] 3-4
#\a #\( #\space⇒atom 0-3, atom 4-7, atom 8-15
#\1a⇒atom 0-4
#\ a⇒atom 0-4
#\\⇒atom 0-3
#\|a|⇒atom 0-5
#\a"b"⇒atom 0-3, string 3-6
#\λx⇒atom 0-5
#\;;⇒atom 0-3, line 3-4
#\␍⏎a⇒atom 0-3, atom 4-5
#\⏎⏎a⇒atom 0-3, atom 4-5
#\#| a⇒atom 0-4, atom 5-6
.⇒dot 0-1
a . b⇒atom 0-1, dot 2-3, atom 4-5
..⇒atom 0-2
.a⇒atom 0-2
a.⇒atom 0-2
.|a|⇒atom 0-4
\.⇒atom 0-2
(.)⇒( 0-1, dot 1-2, ) 2-3
."a"⇒dot 0-1, string 1-4
λ é→⇒atom 0-2, atom 3-8
a°b⇒atom 0-1, atom 3-4
⁰a⇒atom 0-4
⁰(⇒atom 0-3, ( 3-4
日本;語⇒atom 0-6, line 6-10
#tr⇒BadHash at 0
#trueish⇒BadHash at 0
#Tr⇒BadHash at 0
#⇒BadHash at 0
#a⇒BadHash at 0
#\⇒BadHash at 0
#1#a⇒BadHash at 0
#123456789#⇒BadHash at 0
a\⇒OpenBar at 0
a|b⇒OpenBar at 0
#a|b⇒OpenBar at 0
#a\⇒OpenBar at 0
a|b|c|⇒OpenBar at 0
a |⇒OpenBar at 2
#t|⇒OpenBar at 0
λ #λ⇒BadHash at 3
#⁰⇒BadHash at 0"##;
