/// Comments, keywords, dots, here strings, strings of two lines and blank lines in each place of each shape.
pub const ROWS: &str = r##"(if ; c⏎ a b)⇒L⇒(if ; c⏎ a⏎ b)⏎
(if ; c⏎ a b)⇒R⇒unfit
(if a ; c⏎ b)⇒L⇒(if a ; c⏎    b)⏎
(if a ; c⏎ b)⇒R⇒unfit
(if a b ; c⏎)⇒L⇒(if a⏎    b ; c⏎    )⏎
(if a b ; c⏎)⇒R⇒unfit
(if⏎; c⏎ a b)⇒L⇒(if⏎ ; c⏎ a⏎ b)⏎
(if⏎; c⏎ a b)⇒R⇒unfit
(if a⏎; c⏎ b)⇒L⇒(if a⏎    ; c⏎    b)⏎
(if a⏎; c⏎ b)⇒R⇒unfit
(if a b⏎; c⏎)⇒L⇒(if a⏎    b⏎    ; c⏎    )⏎
(if a b⏎; c⏎)⇒R⇒unfit
(define ; c⏎ a b)⇒L⇒(define ; c⏎  a⏎  b)⏎
(define ; c⏎ a b)⇒R⇒unfit
(define a ; c⏎ b)⇒L⇒(define a ; c⏎  b)⏎
(define a ; c⏎ b)⇒R⇒unfit
(define a b ; c⏎)⇒L⇒(define a⏎  b ; c⏎  )⏎
(define a b ; c⏎)⇒R⇒unfit
(define⏎; c⏎ a b)⇒L⇒(define⏎  ; c⏎  a⏎  b)⏎
(define⏎; c⏎ a b)⇒R⇒unfit
(define a⏎; c⏎ b)⇒L⇒(define a⏎  ; c⏎  b)⏎
(define a⏎; c⏎ b)⇒R⇒unfit
(define a b⏎; c⏎)⇒L⇒(define a⏎  b⏎  ; c⏎  )⏎
(define a b⏎; c⏎)⇒R⇒unfit
(struct a ; c⏎ b d)⇒L⇒(struct a ; c⏎  b⏎  d)⏎
(struct a ; c⏎ b d)⇒RL⇒(struct a ; c⏎        b⏎  d)⏎
(struct a ; c⏎ b d)⇒R⇒unfit
(struct a b ; c⏎)⇒L⇒(struct a b ; c⏎  )⏎
(struct a b ; c⏎)⇒RL⇒(struct a⏎        b ; c⏎        )⏎
(struct a b ; c⏎)⇒R⇒unfit
(struct a b⏎; c⏎)⇒L⇒(struct a b⏎  ; c⏎  )⏎
(struct a b⏎; c⏎)⇒RL⇒(struct a⏎        b⏎  ; c⏎  )⏎
(struct a b⏎; c⏎)⇒R⇒unfit
(struct a⏎; c⏎ b d)⇒L⇒(struct a⏎  ; c⏎  b⏎  d)⏎
(struct a⏎; c⏎ b d)⇒RL⇒(struct a⏎        ; c⏎        b⏎  d)⏎
(struct a⏎; c⏎ b d)⇒R⇒unfit
(struct a⏎; c⏎)⇒L⇒(struct⏎ a⏎ ; c⏎ )⏎
(struct a⏎; c⏎)⇒RL⇒(struct a⏎        ; c⏎        )⏎
(struct a⏎; c⏎)⇒R⇒unfit
(cond ; c⏎ [a b])⇒L⇒(cond ; c⏎  [a⏎   b])⏎
(cond ; c⏎ [a b])⇒R⇒(cond ; c⏎  [a b])⏎
(cond ; c⏎ [a b])⇒RR⇒unfit
(cond [a b] ; c⏎)⇒L⇒(cond⏎  [a⏎   b] ; c⏎  )⏎
(cond [a b] ; c⏎)⇒R⇒(cond⏎  [a b] ; c⏎  )⏎
(cond [a b] ; c⏎)⇒RR⇒unfit
(cond [a b]⏎; c⏎)⇒L⇒(cond⏎  [a⏎   b]⏎  ; c⏎  )⏎
(cond [a b]⏎; c⏎)⇒R⇒(cond⏎  [a b]⏎  ; c⏎  )⏎
(cond [a b]⏎; c⏎)⇒RR⇒unfit
(cond⏎; c⏎ [a b])⇒L⇒(cond⏎  ; c⏎  [a⏎   b])⏎
(cond⏎; c⏎ [a b])⇒R⇒(cond⏎  ; c⏎  [a b])⏎
(cond⏎; c⏎ [a b])⇒RR⇒unfit
(cond⏎; c⏎)⇒L⇒(cond⏎  ; c⏎  )⏎
(cond⏎; c⏎)⇒R⇒unfit
(let ; c⏎ ([a b]) d)⇒L⇒(let ; c⏎  ([a⏎    b])⏎  d)⏎
(let ; c⏎ ([a b]) d)⇒R⇒(let ; c⏎  ([a b])⏎  d)⏎
(let ; c⏎ ([a b]) d)⇒RR⇒unfit
(let ([a b]) ; c⏎ d)⇒L⇒(let ([a⏎       b]) ; c⏎  d)⏎
(let ([a b]) ; c⏎ d)⇒R⇒(let ([a b]) ; c⏎  d)⏎
(let ([a b]) ; c⏎ d)⇒RR⇒unfit
(let⏎; c⏎ ([a b]) d)⇒L⇒(let⏎  ; c⏎  ([a⏎    b])⏎  d)⏎
(let⏎; c⏎ ([a b]) d)⇒R⇒(let⏎  ; c⏎  ([a b])⏎  d)⏎
(let⏎; c⏎ ([a b]) d)⇒RR⇒unfit
(define #:k a b)⇒L⇒(define #:k a⏎  b)⏎
(define #:k a b)⇒R⇒(define #:k a b)⏎
(define #:k a b)⇒RR⇒unfit
(define a #:k b)⇒L⇒(define a⏎  #:k b)⏎
(define a #:k b)⇒R⇒(define a #:k b)⏎
(define a #:k b)⇒RR⇒unfit
(define a b #:k)⇒-⇒(define a⏎  b⏎  #:k)⏎
(define a b #:k)⇒R⇒unfit
(struct a b #:k d)⇒L⇒(struct a b⏎  #:k d)⏎
(struct a b #:k d)⇒RR⇒(struct a b #:k d)⏎
(#:k if a b)⇒L⇒(#:k if⏎ a⏎ b)⏎
(#:k if a b)⇒R⇒(#:k if a b)⏎
(#:k if a b)⇒RR⇒unfit
(if #:k a b)⇒L⇒(if #:k a⏎    b)⏎
(if #:k a b)⇒R⇒(if #:k a b)⏎
(if #:k a b)⇒RR⇒unfit
(if a . b)⇒L⇒(if a⏎    . b)⏎
(if a . b)⇒R⇒(if a . b)⏎
(if a . b)⇒RR⇒unfit
(define a . b)⇒L⇒(define a⏎  . b)⏎
(define a . b)⇒R⇒(define a . b)⏎
(define a . b)⇒RR⇒unfit
(a . if . b)⇒L⇒(a⏎ . if⏎ . b)⏎
(a . if . b)⇒RR⇒(a . if . b)⏎
(define a #<<E⏎x⏎E⏎)⇒L⇒(define a⏎  #<<E⏎x⏎E⏎  )⏎
(define a #<<E⏎x⏎E⏎)⇒R⇒unfit
(define #<<E⏎x⏎E⏎ b)⇒L⇒(define #<<E⏎x⏎E⏎  b)⏎
(define #<<E⏎x⏎E⏎ b)⇒R⇒unfit
(if #<<E⏎x⏎E⏎ b)⇒L⇒(if #<<E⏎x⏎E⏎    b)⏎
(if #<<E⏎x⏎E⏎ b)⇒R⇒unfit
(if a #<<E⏎x⏎E⏎)⇒L⇒(if a⏎    #<<E⏎x⏎E⏎    )⏎
(if a #<<E⏎x⏎E⏎)⇒R⇒unfit
(struct a #<<E⏎x⏎E⏎ b)⇒L⇒(struct a #<<E⏎x⏎E⏎  b)⏎
(struct a #<<E⏎x⏎E⏎ b)⇒RL⇒(struct a⏎        #<<E⏎x⏎E⏎  b)⏎
(struct a #<<E⏎x⏎E⏎ b)⇒R⇒unfit
(define a "x⏎y")⇒L⇒(define a⏎  "x⏎y")⏎
(define a "x⏎y")⇒R⇒unfit
(define "x⏎y" a)⇒L⇒(define "x⏎y"⏎  a)⏎
(define "x⏎y" a)⇒R⇒unfit
(if "x⏎y" a)⇒L⇒(if "x⏎y"⏎    a)⏎
(if "x⏎y" a)⇒R⇒unfit
(struct a "x⏎y" b)⇒L⇒(struct a "x⏎y"⏎  b)⏎
(struct a "x⏎y" b)⇒RL⇒(struct a⏎        "x⏎y"⏎  b)⏎
(struct a "x⏎y" b)⇒R⇒unfit
(define a⏎⏎b)⇒L⇒(define a⏎⏎  b)⏎
(define a⏎⏎b)⇒R⇒unfit
(define⏎⏎a b)⇒L⇒(define⏎⏎  a⏎  b)⏎
(define⏎⏎a b)⇒R⇒unfit
(if a⏎⏎⏎b)⇒L⇒(if a⏎⏎    b)⏎
(if a⏎⏎⏎b)⇒R⇒unfit
(if⏎⏎a b)⇒L⇒(if⏎⏎ a⏎ b)⏎
(if⏎⏎a b)⇒R⇒unfit
(struct a⏎⏎b c)⇒L⇒(struct a⏎⏎  b⏎  c)⏎
(struct a⏎⏎b c)⇒RL⇒(struct a⏎⏎        b⏎  c)⏎
(struct a⏎⏎b c)⇒R⇒unfit
(cond⏎⏎[a b])⇒L⇒(cond⏎⏎  [a⏎   b])⏎
(cond⏎⏎[a b])⇒R⇒(cond⏎⏎  [a b])⏎
(cond⏎⏎[a b])⇒RR⇒unfit
(define a #|x|# b)⇒L⇒(define a⏎  #|x|#⏎  b)⏎
(define a #|x|# b)⇒R⇒(define a #|x|# b)⏎
(define a #|x|# b)⇒RR⇒unfit
(if #|x|# a b)⇒L⇒(if #|x|#⏎    a⏎    b)⏎
(if #|x|# a b)⇒R⇒(if #|x|# a b)⏎
(if #|x|# a b)⇒RR⇒unfit"##;
